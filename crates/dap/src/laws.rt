// What follows from these contracts, the contract of a function that does nothing.
ghost use Rattle.dap.specs.Laws.{SessionIsLed, SessionSees};

use crate::sources::Sources;

/// Whatever a client asks, one request after another, and whatever the files hold: the desk is then what commands of
/// sessions leave of the one with which the program was launched, or launched anew; and what is shown of its state is so
/// in the state as it is.
pub fn session_laws<F: Sources>(files: &F)
    ensures led { SessionIsLed (F.reads files.now) }
    ensures sees { SessionSees (F.reads files.now) }
{
    let _files = files;
}
