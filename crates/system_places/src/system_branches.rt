// The branches of a system.
ghost use Rattle.std.specs.Prelude.{◌≡◌};
ghost use Rattle.std.specs.Option.{option_copied};
ghost use Rattle.system_places.specs.SystemBranches as model;
ghost use Rattle.system.specs.Named as named;

use address::{Address, Entry};
use syntax::Items;
use system::{Action, Command, System};

/// The children of a command that is a parallel.
fn parallel_of(command: &Command) -> Option<&Items<Command>>
    ensures { option_copied result ≡ model.parallel_of command.now }
{
    match command.action.get() {
        Action::Parallel(children) => Some(children),
        _ => None,
    }
}

/// How many branches the command is: the children of a parallel, else 1.
fn branches_of(command: &Command) -> usize
    ensures { result ≡ model.branches_of command.now }
{
    match parallel_of(command) {
        Some(children) => children.len(),
        None => 1,
    }
}

/// The number of the child of a parallel in which a place lies.
fn child_number(children: &[Command], way: &[Entry]) -> Option<u32>
    ensures { result ≡ model.child_number children.now way.now }
{
    match way.first()? {
        Entry::Branch(number) if (*number as usize) < children.len() => Some(*number),
        _ => None,
    }
}

/// The branch of the place that is reached on this way from the body.
fn branch_within(body: &Command, way: &[Entry]) -> Option<u32>
    ensures { result ≡ model.branch_within (model.parallel_of body.now) way.now }
{
    match parallel_of(body) {
        Some(children) => child_number(children.as_slice(), way),
        None => Some(0),
    }
}

/// The number, where it has 32 bits.
fn as_number(count: usize) -> Option<u32>
    ensures { result ≡ named.as_number count }
{
    if count <= 4294967295 {
        Some(count as u32)
    } else {
        None
    }
}

/// The branch of the port of this number, counted from 1.
fn branch_of_port(system: &System, port: u32) -> Option<u32>
    ensures { result ≡ model.branch_of_port system.now port }
{
    let port = port as usize;
    if port <= system.environment.len() {
        as_number(branches_of(&system.main).saturating_add(port.saturating_sub(1)))
    } else {
        None
    }
}

/// How many branches the system has, 4294967295 where they are more: the children of its body where that is a parallel,
/// else the body as one, and behind them the environment's side of each port.
pub fn branch_count(system: &System) -> u32
    ensures { result ≡ model.branch_count system.now }
{
    let count = branches_of(&system.main).saturating_add(system.environment.len());
    count.min(4294967295) as u32
}

/// The branch in which the place lies, from 0: of a body that is a parallel, branch i lies at `/0/i`, and any other
/// body is branch 0, at `/0`. The branch of the k-th port lies at `/k`, and comes behind those of the body and those of
/// the ports before it. None for a place that lies in no branch, or in one whose number has not 32 bits.
pub fn branch_at(system: &System, place: &Address) -> Option<u32>
    ensures { result ≡ model.branch_at system.now place.now }
{
    match place.entries() {
        [Entry::Branch(number), way @ ..] => {
            if *number == 0 {
                branch_within(&system.main, way)
            } else {
                branch_of_port(system, *number)
            }
        }
        _ => None,
    }
}
