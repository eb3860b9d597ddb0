ghost use Rattle.std.specs.Prelude.{◌≡◌, Bool};
ghost use Rattle.dap_messages.specs.declared.answer.Answer.{Answer as Given};
ghost use Rattle.dap_messages.specs.declared.request.Request.{Request as Asked};

use dap_messages::{Answer, Request};

/// What answers the requests of a client. C is what it may look at beside them.
pub trait Adapter<C> {
    // Of what it may look at, the adapter before, a request, its answer and the adapter after: what may come of the
    // request.
    ghost answers: { C → Self → Asked → Given → Self → Type 0 };

    // Whether the client has ended the session.
    ghost over: { Self → Bool };

    /// Answers the request.
    fn answer(&mut self, context: &C, request: &Request) -> Answer
        ensures { answers context.now self.old request.now result self.new };

    /// Whether the client has ended the session.
    fn is_over(&self) -> bool
        ensures { result ≡ over self.now };
}
