// What ready events add to the marks of lines.
ghost use Rattle.source_view.specs.View.{is_line};
ghost use Rattle.source_view.specs.internal.Marking.{ChangedBy, with_events, with_event};

use crate::conflict::conflicts_with_next;
use crate::marks::Marks;
use machine::Machine;
use runs::Event;

/// Adds what the ready events mark. Of those that act at one place each stands behind another.
pub(crate) fn add_ready(machine: &Machine, ready: &[Event], marks: &mut [Marks])
    ensures { ChangedBy (with_events machine.now ready.now) marks.old marks.new }
{
    let mut rest = ready;
    while let [event, after @ ..] = rest {
        let line = machine.line(event.acting_place());
        add_event(marks, line, conflicts_with_next(machine, event, after));
        rest = after;
    }
}

/// Adds what an event on this line marks.
fn add_event(marks: &mut [Marks], line: Option<u64>, in_conflict: bool)
    ensures { ChangedBy (λ n. with_event (is_line line n) in_conflict) marks.old marks.new }
{
    let Some(line) = line else {
        return;
    };
    if line == 0 || line > marks.len() as u64 {
        return;
    }
    let mark = &mut marks[(line - 1) as usize];
    mark.is_ready = true;
    mark.in_conflict = mark.in_conflict || in_conflict;
}
