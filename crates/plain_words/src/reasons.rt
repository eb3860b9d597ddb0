// Why something was refused, in words.
use crate::text::Text;
use runs::Refusal;

/// Adds why it was refused, and what helps, but for a step that others depend on, of which the number alone is told.
pub fn add_reason(text: &mut Text, why: Refusal) {
    match why {
        Refusal::Memory => text.add(b"there was no memory for it, and nothing changed"),
        Refusal::NotReady => text.add(
            b"no step can be taken there now\n  `ready` numbers those that can, and a number takes one",
        ),
        Refusal::HistoryFull => {
            text.add(b"65536 steps are live, and there may be no more\n  `back` takes some back")
        }
        Refusal::NoSuchEvent => text.add(b"no live step has this number; `live` lists them"),
        Refusal::NeededBy(ticket) => {
            text.add_counted(b"step ", ticket, b" depends on it");
        }
        Refusal::NeverWritten => text.add(b"no live step wrote it, so it is 0 as at the beginning"),
        Refusal::Spent => text.add(
            b"no number is left for another step\n  `save` keeps the run, and `load` begins again from 1",
        ),
        Refusal::BreaksFull => {
            text.add(b"as many lines have a breakpoint as may have one; `clear LINE` frees one")
        }
        Refusal::NoSuchLine => text.add(b"no command begins on this line; `list` shows the lines"),
    }
}
