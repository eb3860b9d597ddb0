// One line of a stimulus after another.
ghost use Rattle.std.specs.Prelude.{◌≡◌, ◌⊎◌, IfErr, OnOk};
ghost use Rattle.elaborate.specs.StimulusText.{HasForm};
ghost use Rattle.elaborate.specs.internal.LineParts.{IsAdded};
ghost use Rattle.refusals.specs.declared.elaborate.Fault.TheVariants.{Memory, BadStimulus};

use crate::Fault;
use crate::entry::read_entry;
use crate::stimulus::Entry;
use std::alloc::Global;
use syntax::Items;

/// Adds the entry of a line, if the line is not empty. A line of another form is refused.
pub fn add_line(
    alloc: Global,
    entries: &mut Items<Entry>,
    line: u64,
    text: &[u8],
) -> Result<(), Fault>
    ensures ok { OnOk result (IsAdded line text.now entries.old entries.new) }
    ensures err { IfErr result (λ fault. (fault ≡ Memory) ⊎ ((fault ≡ BadStimulus line) × ¬ HasForm text.now)) }
{
    if text.is_empty() {
        return Ok(());
    }
    let Some((name, given)) = read_entry(alloc, text)? else {
        return Err(Fault::BadStimulus(line));
    };
    entries.push(Entry { line, name, given })?;
    Ok(())
}
