// The marks of lines.
ghost use Rattle.std.specs.Prelude.{IfOk};
ghost use Rattle.runs.specs.InOrder.{InOrder};
ghost use Rattle.runs.specs.Ready.{Sooner};
ghost use Rattle.source_view.specs.View.{marks_on};
ghost use Rattle.source_view.specs.internal.Marking.{AreMarks, break_mark};

use crate::ready_marks::add_ready;
use machine::{Breaks, Machine};
use runs::Event;
use std::alloc::{AllocError, Global};

/// What stands before a line.
#[derive(Clone, Copy)]
pub(crate) struct Marks {
    /// a ready event acts on the line
    pub(crate) is_ready: bool,
    /// the session has a breakpoint there
    pub(crate) has_break: bool,
    /// a `select` in conflict begins there
    pub(crate) in_conflict: bool,
}

/// The marks of so many lines, where these events are ready.
pub(crate) fn marks_of(
    alloc: Global,
    machine: &Machine,
    breaks: &Breaks,
    ready: &[Event],
    count: usize,
) -> Result<Vec<Marks>, AllocError>
    requires { InOrder Sooner ready.now }
    ensures { IfOk result (λ marks. AreMarks marks.items count (marks_on machine.now ready.now breaks.now)) }
{
    let mut marks = breaks_alone(alloc, breaks, count)?;
    add_ready(machine, ready, &mut marks);
    Ok(marks)
}

/// The marks of so many lines where no event is ready.
fn breaks_alone(alloc: Global, breaks: &Breaks, count: usize) -> Result<Vec<Marks>, AllocError>
    ensures { IfOk result (λ marks. AreMarks marks.items count (break_mark breaks.now)) }
{
    let mut marks = Vec::with_capacity(alloc, count)?;
    for index in 0..count {
        marks.push_reserved(Marks {
            is_ready: false,
            has_break: breaks.has(index as u64 + 1),
            in_conflict: false,
        });
    }
    Ok(marks)
}
