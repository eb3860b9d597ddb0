// What is to be told of an answer, however little memory there is.
ghost use Rattle.std.specs.Prelude.{◌≡◌};
ghost use Rattle.dap_server.specs.Short as model;

use dap_messages::{Answer, Effect, Outcome, Told};

/// What came of a request.
#[derive(Clone, Copy, Debug, PartialEq, Eq)]
pub(crate) enum Gist {
    /// it is refused, for the reason of this number
    Refused(u64),
    /// nothing has changed, and there is nothing to tell but the answer
    Untold,
    /// something was done that stays
    Done,
    /// something was done that stays, and this event has to come
    Due(Told),
}

/// What came of the request that has this answer.
pub(crate) fn gist_of(answer: &Answer) -> Gist
    ensures { result ≡ model.gist_of answer.now.outcome answer.now.effect }
{
    match &answer.outcome {
        Outcome::Refused(number, _) => Gist::Refused(*number),
        Outcome::Done(_) => done_by(answer.effect),
    }
}

/// What came of a request that is done.
fn done_by(effect: Effect) -> Gist
    ensures { result ≡ model.done_by effect }
{
    match effect {
        Effect::Nothing => Gist::Untold,
        Effect::Done => Gist::Done,
        Effect::Due(told) => Gist::Due(told),
    }
}
