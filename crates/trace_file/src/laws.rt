// The laws of traces and of the canonical order, each the contract of a function that does nothing.
ghost use Rattle.trace_file.specs.Laws.{OneList, NotRefused, OneFault, EqualBytes, TraceStands, LoadsTheSame};
ghost use Rattle.trace_file.specs.CanonicalLaws.{CanonicalRespects, CanonicalRuns, OrdersAgree, OneCanonicalOrder, SomeCanonicalOrder, IsItsOwnOrder};

/// Runs that differ only in the order of independent steps have traces of equal bytes: a saved trace is the normal
/// form of a trace in Mazurkiewicz's sense. What is saved loads again: a text stands for one list of events, and is
/// then refused for want of memory alone; the trace of a machine stands for its events in canonical order, and what
/// is loaded from it has these events and the same state. A text that is refused is refused for one reason, or for
/// want of memory.
pub fn trace_laws()
    ensures list { OneList }
    ensures refused { NotRefused }
    ensures fault { OneFault }
    ensures equal { EqualBytes }
    ensures saved { TraceStands }
    ensures loaded { LoadsTheSame }
{}

/// A list that runs has one canonical order. It is a respecting order of the list, so that it runs to the same state;
/// it is its own canonical order; and two lists that are respecting orders of each other have one canonical order. So
/// it is a normal form of the trace (Mazurkiewicz, 1977) to which the list belongs.
pub fn canonical_laws()
    ensures respects { CanonicalRespects }
    ensures runs { CanonicalRuns }
    ensures agree { OrdersAgree }
    ensures one { OneCanonicalOrder }
    ensures some { SomeCanonicalOrder }
    ensures own { IsItsOwnOrder }
{}
