// The calls of a description and the variables that they make: a walk through the bodies of procedures, that of a
// called one where its call stands. So the calls come in the order in which their copies are made.
ghost use Rattle.std.specs.Prelude.{◌≡◌, ◌∷◌, List, reverse, slice_get, take, IfOk, OnOk};
ghost use Rattle.std.specs.Option.{option_copied};
ghost use Rattle.types.specs.declared.tree.Procedure as typed_procedure;
ghost use Rattle.described.specs.Telling as model;
ghost use Rattle.described.specs.internal.Pendings.{leads, pending_of};

use crate::body_calls::{BodyCall, calls_of};
use crate::found::Found;
use address::{Address, Entry};
use std::alloc::{AllocError, Global};
use syntax::Items;
use system::Prefix;
use types::Procedure;

/// How a body is entered.
#[derive(Drop)]
pub(crate) struct Entered {
    /// what stands before the names that it makes
    pub(crate) prefix: Prefix,
    /// where it stands
    pub(crate) place: Address,
    /// in how many calls it stands
    pub(crate) depth: u64,
}

/// A call that is still to be told.
#[derive(Drop)]
pub(crate) struct Pending {
    /// how the body that is called is entered
    pub(crate) entered: Entered,
    /// the line of the call
    pub(crate) line: u64,
    /// the number of the procedure that is called
    pub(crate) procedure: u32,
    /// how many procedures come before the one in which the call stands, which may be called there
    pub(crate) earlier: usize,
}

/// The calls and the variables of the description with these procedures.
pub(crate) fn walk(alloc: Global, procedures: &[Procedure]) -> Result<Found, AllocError>
    ensures { IfOk result (λ found. found ≡ model.found_in procedures.now) }
{
    let mut found = Found::nothing(alloc);
    let mut work = Items::new(alloc);
    enter_root(alloc, procedures, &mut found, &mut work)?;
    for _ in 0..u64::MAX {
        match work.pop() {
            Some(call) => take_call(alloc, procedures, call, &mut found, &mut work)?,
            None => return Ok(found),
        }
    }
    Err(AllocError)
}

/// Enters the body of the root, which is the last procedure, at `/0`.
fn enter_root(
    alloc: Global,
    procedures: &[Procedure],
    found: &mut Found,
    work: &mut Items<Pending>,
) -> Result<(), AllocError>
    ensures { OnOk result (leads procedures.now (reverse work.new) found.new
        ≡ leads procedures.now (reverse work.old) (model.from_root procedures.now found.old)) }
{
    let before = procedures.len().saturating_sub(1);
    match procedures.get(before) {
        Some(root) => enter(alloc, root, before, at_root(alloc)?, found, work),
        None => Ok(()),
    }
}

/// How the body of the root is entered.
fn at_root(alloc: Global) -> Result<Entered, AllocError>
    ensures { IfOk result (λ entered. entered ≡ model.at_root) }
{
    let place = Address::new(alloc, &[Entry::Branch(0)])?;
    Ok(Entered {
        prefix: Prefix::root(),
        place,
        depth: 0,
    })
}

/// Tells a call, and enters the body of the procedure that it calls.
fn take_call(
    alloc: Global,
    procedures: &[Procedure],
    call: Pending,
    found: &mut Found,
    work: &mut Items<Pending>,
) -> Result<(), AllocError>
    ensures { OnOk result (leads procedures.now (reverse work.new) found.new
        ≡ leads procedures.now (call ∷ reverse work.old) found.old) }
{
    let Pending {
        entered,
        line,
        procedure,
        earlier,
    } = call;
    match procedure_among(procedures, earlier, procedure) {
        Some(called) => {
            found.add_call(alloc, &entered, called, line)?;
            enter(alloc, called, procedure as usize, entered, found, work)
        }
        None => Ok(()),
    }
}

/// The procedure of this number, if it is one of the first `count`.
fn procedure_among(procedures: &[Procedure], count: usize, number: u32) -> Option<&Procedure>
    ensures { option_copied result ≡ slice_get (take count procedures.now) number }
{
    let number = number as usize;
    if number < count {
        procedures.get(number)
    } else {
        None
    }
}

/// Enters the body of a procedure that comes behind so many: its variables are found, and its calls are to be told.
fn enter(
    alloc: Global,
    procedure: &Procedure,
    earlier: usize,
    entered: Entered,
    found: &mut Found,
    work: &mut Items<Pending>,
) -> Result<(), AllocError>
    ensures { OnOk result ((procedures : List typed_procedure.Procedure) →
        leads procedures (reverse work.new) found.new
        ≡ leads procedures (reverse work.old)
        (model.tell_body (model.tellings (take earlier procedures)) procedure.now entered found.old)) }
{
    found.add_locals(procedure.locals.as_slice())?;
    let calls = calls_of(alloc, &procedure.body, &entered.place)?;
    push_calls(alloc, calls, earlier, &entered, work)
}

/// Puts the calls of a body on top of the work, the first of them last.
fn push_calls(
    alloc: Global,
    mut calls: Items<BodyCall>,
    earlier: usize,
    entered: &Entered,
    work: &mut Items<Pending>,
) -> Result<(), AllocError>
    ensures { OnOk result ((procedures : List typed_procedure.Procedure) (found : model.Found) →
        leads procedures (reverse work.new) found
        ≡ leads procedures (reverse work.old)
        (model.tell_calls (model.tellings (take earlier procedures)) entered.now 0 calls found)) }
{
    'calls: loop {
        let number = calls.len() as u64;
        let Some(call) = calls.pop() else {
            return Ok(());
        };
        work.push(pending_of(alloc, entered, earlier, number, call)?)?;
    }
}

/// The call of this number, from 1, of a body that is entered so.
fn pending_of(
    alloc: Global,
    around: &Entered,
    earlier: usize,
    number: u64,
    call: BodyCall,
) -> Result<Pending, AllocError>
    ensures { IfOk result (λ pending. pending ≡ pending_of around.now earlier number call) }
{
    let BodyCall {
        place,
        line,
        procedure,
    } = call;
    let Some(depth) = around.depth.checked_add(1) else {
        return Err(AllocError);
    };
    let prefix = around.prefix.clone()?.of_call(alloc, number)?;
    let entered = Entered {
        prefix,
        place,
        depth,
    };
    Ok(Pending {
        entered,
        line,
        procedure,
        earlier,
    })
}
