// What requests may do.
ghost use Rattle.std.specs.Prelude.{◌≡◌};
ghost use Rattle.dap_server.specs.Kinds.{moves};

use dap_messages::Kind;

/// Whether a request of this kind asks a thread to move, or to stand.
pub fn is_move(kind: Kind) -> bool
    ensures { result ≡ moves kind }
{
    matches!(
        kind,
        Kind::Next
            | Kind::StepIn
            | Kind::StepOut
            | Kind::Continue
            | Kind::StepBack
            | Kind::ReverseContinue
            | Kind::Pause
    )
}
