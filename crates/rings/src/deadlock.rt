// Places of which none goes on before another does.
ghost use Rattle.std.specs.Prelude.{◌≡◌, ◌<◌, ℕ, true, length, map, slice_get, slice_index, Some, IfOk, OnOk};
ghost use Rattle.std.specs.Option.{option_copied};
ghost use Rattle.syntax.specs.Lists.{In};
ghost use Rattle.dependence.specs.LastEvents.{Uses};
ghost use Rattle.system.specs.Residual.{Residual};
ghost use Rattle.rings.specs.Partners.{partner_in};
ghost use Rattle.rings.specs.Rings.{Helped, TellsDeadlocked};
ghost use Rattle.rings.specs.internal.Loosened as model;
ghost use Rattle.rings.specs.internal.Loosening.{Loosened, Loosening, count_for};
ghost use Rattle.rings.specs.internal.Standing.{HasTables, row_of};
ghost use Rattle.rings.specs.internal.Tally.{Counted, Loosens};

use crate::counts::{counts_of, loosen};
use crate::partner::Partner;
use crate::place_uses::PlaceUses;
use crate::tables::{Tables, group_of, row_of};
use crate::waits::is_marked;
use local_actions::LocalAction;
use std::alloc::{AllocError, Global};

/// For each of the actions whether its place is deadlocked, where these are the partners of the actions, and `helped`
/// says which of them are helped from elsewhere, in their order. It takes as many steps as there are actions, and as
/// their places have entries, each by halves: what waits behind one place is counted together. It is an error if there
/// is no memory.
pub fn deadlocked_among(
    alloc: Global,
    actions: &[LocalAction],
    partners: &[Partner],
    helped: &[bool],
) -> Result<Vec<bool>, AllocError>
    requires partners { length partners.now ≡ length actions.now }
    requires helped { length helped.now ≡ length actions.now }
    ensures { (r : Residual) (help : Helped) → partners.now ≡ map (partner_in r) actions.now
        → helped.now ≡ map help actions.now → IfOk result (λ marks. TellsDeadlocked help r actions.now marks.items) }
{
    let tables = Tables::of(alloc, actions, partners)?;
    firm_among(alloc, actions, partners, helped, &tables)
}

/// The same, where these are the tables of the actions.
fn firm_among(
    alloc: Global,
    actions: &[LocalAction],
    partners: &[Partner],
    helped: &[bool],
    tables: &Tables,
) -> Result<Vec<bool>, AllocError>
    requires partners { length partners.now ≡ length actions.now }
    requires tables { HasTables tables.now actions.now partners.now }
    ensures { (r : Residual) (help : Helped) → partners.now ≡ map (partner_in r) actions.now
        → helped.now ≡ map help actions.now → IfOk result (λ marks. TellsDeadlocked help r actions.now marks.items) }
{
    let mut marks = all_marked(alloc, actions.len())?;
    take_loose(alloc, actions, partners, helped, tables, &mut marks)?;
    Ok(marks)
}

/// Takes away the marks of those that are not deadlocked, where all are marked.
fn take_loose(
    alloc: Global,
    actions: &[LocalAction],
    partners: &[Partner],
    helped: &[bool],
    tables: &Tables,
    marks: &mut Vec<bool>,
) -> Result<(), AllocError>
    requires partners { length partners.now ≡ length actions.now }
    requires tables { HasTables tables.now actions.now partners.now }
    requires size { length marks.old.items ≡ length actions.now }
    requires set { (i : ℕ) → i < length actions.now → slice_get marks.old.items i ≡ Some true }
    ensures { (r : Residual) (help : Helped) → partners.now ≡ map (partner_in r) actions.now
        → helped.now ≡ map help actions.now → OnOk result (TellsDeadlocked help r actions.now marks.new.items) }
{
    let groups = tables.waiters.count as usize;
    let mut counts = counts_of(alloc, &tables.above, actions.len(), groups)?;
    let mut todo = all_numbers(alloc, actions.len())?;
    loosen_all(
        actions,
        partners,
        helped,
        tables,
        marks,
        &mut counts,
        &mut todo,
    )
}

/// Takes marks away until each action that is marked is firm.
fn loosen_all(
    actions: &[LocalAction],
    partners: &[Partner],
    helped: &[bool],
    tables: &Tables,
    marks: &mut Vec<bool>,
    counts: &mut Vec<usize>,
    todo: &mut Vec<usize>,
) -> Result<(), AllocError>
    requires partners { length partners.now ≡ length actions.now }
    requires tables { HasTables tables.now actions.now partners.now }
    requires begun { Loosening actions.now partners.now helped.now marks.old.items tables.now counts.old.items
        todo.old.items }
    ensures { OnOk result (Loosened actions.now partners.now helped.now marks.new.items tables.now counts.new.items
        todo.new.items) }
{
    'loosening: while let Some(number) = todo.pop() {
        let count = count_for(&tables.waiters, counts.as_slice(), partners, number);
        if is_loose(partners, helped, marks.as_slice(), count, number) {
            loosen_at(actions, tables, number, marks, counts, todo)?;
        }
    }
    Ok(())
}

/// Takes the marks of all away that stand at the place of the action of this number.
fn loosen_at(
    actions: &[LocalAction],
    tables: &Tables,
    number: usize,
    marks: &mut Vec<bool>,
    counts: &mut Vec<usize>,
    todo: &mut Vec<usize>,
) -> Result<(), AllocError>
    requires groups { (j g : ℕ) → Uses tables.now.above j g → g < length counts.old.items }
    requires standing { (r i : ℕ) → row_of tables.now.standing (slice_get actions.now number) ≡ Some r
        → Uses tables.now.standing.uses r i → i < length marks.old.items }
    requires counted { Counted tables.now.above (length marks.old.items) marks.old.items counts.old.items }
    ensures { (r : ℕ) → row_of tables.now.standing (slice_get actions.now number) ≡ Some r → OnOk result
        (Loosens tables.now.above tables.now.standing.uses tables.now.waiters.uses r marks.old.items marks.new.items
        counts.old.items counts.new.items todo.old.items todo.new.items) }
{
    match row_of(&tables.standing, actions, number) {
        Some(row) => loosen(
            &tables.above,
            &tables.standing.uses,
            &tables.waiters.uses,
            row as usize,
            marks,
            counts,
            todo,
        ),
        None => Ok(()),
    }
}

/// So many marks, all of them set.
fn all_marked(alloc: Global, count: usize) -> Result<Vec<bool>, AllocError>
    ensures size { IfOk result (λ marks. length marks.items ≡ count) }
    ensures set { IfOk result (λ marks. (i : ℕ) → i < count → slice_get marks.items i ≡ Some true) }
{
    Ok(vec![in alloc; true; count]?)
}

/// All numbers below this one.
fn all_numbers(alloc: Global, count: usize) -> Result<Vec<usize>, AllocError>
    ensures { IfOk result (λ numbers. (i : ℕ) → i < count → In i numbers.items) }
{
    let mut numbers = Vec::with_capacity(alloc, count)?;
    for number in 0..count {
        numbers.push(number)?;
    }
    Ok(numbers)
}

/// Whether the action of this number is marked, and is helped or not held back, where it waits for so many.
fn is_loose(
    partners: &[Partner],
    helped: &[bool],
    marks: &[bool],
    count: usize,
    number: usize,
) -> bool
    ensures { result ≡ model.is_loose partners.now helped.now marks.now count number }
{
    is_marked(marks, number) && (is_marked(helped, number) || is_free(partners.get(number), count))
}

/// For how many the action waits that has the partner of this number.
fn count_for(waiters: &PlaceUses, counts: &[usize], partners: &[Partner], number: usize) -> usize
    ensures { result ≡ count_for waiters.now counts.now partners.now number }
{
    match group_of(waiters, partners, number) {
        Some(group) => count_at(counts, group as usize),
        None => 0,
    }
}

/// For how many those wait that wait in the row of this number.
fn count_at(counts: &[usize], number: usize) -> usize
    ensures { result ≡ slice_index counts.now number }
{
    match counts.get(number) {
        Some(count) => *count,
        None => 0,
    }
}

/// Whether there is a partner, and nothing holds it back, where it waits for so many.
fn is_free(partner: Option<&Partner>, count: usize) -> bool
    ensures { result ≡ model.is_free (option_copied partner.entry) count }
{
    match partner {
        Some(Partner::Behind(_)) => count == 0,
        Some(Partner::Open) => true,
        Some(Partner::Gone) | None => false,
    }
}
