// Where a walk down along a place ends, and what is offered there.
ghost use Rattle.std.specs.Prelude.{◌≡◌, ℕ, [], IfOk, IsSome, OnOk, OnErr};
ghost use Rattle.system.specs.Expression as model;
ghost use Rattle.process_tree.specs.Proc.{started};
ghost use Rattle.process_tree.specs.Remaining.{Received};
ghost use Rattle.process_tree.specs.View.{code_view, once_view, proc_view};
ghost use Rattle.process_tree.specs.internal.Received.{puts_once};
ghost use Rattle.local_actions.specs.Walk.{added};
ghost use Rattle.local_actions.specs.internal.At.{IsKept, at_site, chosen, once_chosen, once_kind, only_kind, opens_here};
ghost use Rattle.local_actions.specs.internal.Listed.{listed};

use crate::action::ActionKind;
use crate::around::{Around, OnWay};
use crate::cursor::{Cursor, small};
use crate::fresh::list_fresh;
use crate::kinds::{kind_of_again, kind_of_held, kind_of_once, kind_of_sender, kind_of_test};
use crate::list::list;
use process_tree::{Await, Code, Decide, Once, Proc, Repeat, Sender};
use std::alloc::{AllocError, Global};
use syntax::Items;
use value::Value;

/// What offers one action alone, at the end of the place.
#[derive(Clone, Copy)]
pub enum Only<'t> {
    Waiting(&'t Sender),
    Holding(&'t Sender),
    /// a loop before a turn
    Again(&'t Repeat),
    Test(&'t Decide),
    /// an arm that opened on this channel, and is finished
    Close(u32),
    /// the environment's receives on this channel
    Drain(u32),
}

/// Where a walk down along a place ends.
#[derive(Clone, Copy)]
pub enum Site<'t> {
    /// the place is that of a process
    Begun(&'t Proc),
    /// or of a command that has made no move
    Fresh(&'t Code),
    /// arms that wait open there
    Arms(&'t Await),
    Only(Only<'t>),
    Nothing,
}

/// Lists what is offered at the place and below it.
pub(crate) fn list_site(
    alloc: Global,
    site: Site<'_>,
    values: &[Value],
    cursor: &mut Cursor,
) -> Result<(), AllocError>
    ensures { OnOk result (cursor.new
        ≡ added (at_site values.now cursor.old.received site.entry) cursor.old) }
{
    match site {
        Site::Begun(proc) => {
            list(alloc, proc, values, cursor)?;
            Ok(())
        }
        Site::Fresh(code) => {
            list_fresh(alloc, code, values, cursor)?;
            Ok(())
        }
        Site::Arms(waiting) => list_opens(alloc, waiting.channels.as_slice(), cursor),
        Site::Only(only) => {
            let kind = kind_of(alloc, only, values, cursor.around())?;
            cursor.add(alloc, kind)
        }
        Site::Nothing => Ok(()),
    }
}

/// Lists the opens of arms that wait on these channels, at the place itself.
pub(crate) fn list_opens(
    alloc: Global,
    channels: &[u32],
    cursor: &mut Cursor,
) -> Result<(), AllocError>
    ensures { OnOk result (cursor.new ≡ added (opens_here 0 channels.now) cursor.old) }
{
    for (arm, channel) in channels.iter().enumerate() {
        let arm = small(arm as u64)?;
        cursor.add(alloc, ActionKind::Opens(*channel, arm))?;
    }
    Ok(())
}

/// The action at the place itself that opens this arm, 0 where it opens none.
#[tactic(auto, using(crate::proofs::public::Sites::only_chosen, crate::proofs::public::Sites::only_not))]
pub(crate) fn chosen(
    alloc: Global,
    site: Site<'_>,
    arm: u32,
    values: &[Value],
    way: &OnWay,
) -> Result<Option<ActionKind>, AllocError>
    ensures found { (env : Received) → IsKept way.now env →
        IfOk result (λ found. found ≡ chosen [] arm (at_site values.now env site.entry)) }
    ensures offered { (env : Received) → OnErr result (IsSome (chosen [] arm (at_site values.now env site.entry))) }
{
    match site {
        Site::Begun(proc) => chosen_once(alloc, once_at(proc), arm, values, way),
        Site::Fresh(code) => chosen_once(alloc, fresh_once(code), arm, values, way),
        Site::Arms(waiting) => Ok(opening(&waiting.channels, arm)),
        Site::Only(only) => {
            if arm > 0 {
                return Ok(None);
            }
            match kind_on_way(alloc, only, values, way) {
                Ok(kind) => Ok(Some(kind)),
                Err(error) => Err(error),
            }
        }
        Site::Nothing => Ok(None),
    }
}

/// The action of what offers one alone, behind the arms on the way.
fn kind_on_way(
    alloc: Global,
    only: Only<'_>,
    values: &[Value],
    way: &OnWay,
) -> Result<ActionKind, AllocError>
    ensures { (env : Received) → IsKept way.now env → IfOk result (λ kind. kind ≡ only_kind values.now env only.entry) }
{
    kind_of(alloc, only, values, way.around()?)
}

/// The action of what offers one alone.
fn kind_of(
    alloc: Global,
    only: Only<'_>,
    values: &[Value],
    around: &Around,
) -> Result<ActionKind, AllocError>
    ensures { IfOk result (λ kind. kind ≡ only_kind values.now around.now only.entry) }
{
    match only {
        Only::Waiting(sender) => kind_of_sender(alloc, sender, values, around),
        Only::Holding(sender) => Ok(kind_of_held(sender)),
        Only::Again(repeat) => kind_of_again(alloc, &repeat.guard, values, around),
        Only::Test(decide) => kind_of_test(alloc, &decide.decision, values, around),
        Only::Close(channel) => Ok(ActionKind::Closes(channel)),
        Only::Drain(channel) => Ok(ActionKind::Receives(channel, None)),
    }
}

/// The action of what makes one move, if there is one, and it opens this arm as all do that open none.
#[tactic(auto, using(crate::proofs::public::Sites::once_is_chosen, crate::proofs::public::Sites::once_not))]
fn chosen_once(
    alloc: Global,
    once: Option<&Once>,
    arm: u32,
    values: &[Value],
    way: &OnWay,
) -> Result<Option<ActionKind>, AllocError>
    ensures found { (env : Received) → IsKept way.now env →
        IfOk result (λ found. found ≡ once_chosen values.now env arm once.entry) }
    ensures offered { (env : Received) → OnErr result (IsSome (once_chosen values.now env arm once.entry)) }
{
    match once {
        None => Ok(None),
        Some(once) => {
            if arm > 0 {
                return Ok(None);
            }
            match once_on_way(alloc, once, values, way) {
                Ok(kind) => Ok(Some(kind)),
                Err(error) => Err(error),
            }
        }
    }
}

/// The action of what makes one move, behind the arms on the way.
fn once_on_way(
    alloc: Global,
    once: &Once,
    values: &[Value],
    way: &OnWay,
) -> Result<ActionKind, AllocError>
    ensures { (env : Received) → IsKept way.now env →
        IfOk result (λ kind. kind ≡ once_kind values.now (puts_once env (once_view once.now))) }
{
    kind_of_once(alloc, once, values, way.around()?)
}

/// What the process offers at its own place, where it makes one move.
#[tactic(auto, using(crate::proofs::public::Sites::once_here, crate::proofs::public::Sites::once_gone, crate::proofs::public::Sites::no_once))]
fn once_at(proc: &Proc) -> Option<&Once>
    ensures { (s : model.Store) (env : Received) (k : ℕ) →
        chosen [] k (listed s env (proc_view proc.now)).actions ≡ once_chosen s env k result }
{
    match proc {
        Proc::Once(once, made) => {
            if *made {
                return None;
            }
            Some(once.get())
        }
        _ => None,
    }
}

/// What the command offers at its own place before its first move, where it makes one.
#[tactic(auto, using(crate::proofs::public::Sites::fresh_here, crate::proofs::public::Sites::no_fresh))]
fn fresh_once(code: &Code) -> Option<&Once>
    ensures { (s : model.Store) (env : Received) (k : ℕ) →
        chosen [] k (listed s env (started (code_view code.now))).actions ≡ once_chosen s env k result }
{
    match code {
        Code::Once(once) => Some(once.get()),
        _ => None,
    }
}

/// The open of this arm, if there is one.
fn opening(channels: &Items<u32>, arm: u32) -> Option<ActionKind>
    ensures { result ≡ chosen [] arm (opens_here 0 channels.now) }
{
    match channels.get(arm as usize) {
        Some(channel) => Some(ActionKind::Opens(*channel, arm)),
        None => None,
    }
}
