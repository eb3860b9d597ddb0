//! The first entries of a stimulus, where not all of them may be wanted.
ghost use Rattle.std.specs.Prelude.{◌≡◌, ℕ, ◌≤◌, ◌⊎◌, List, [], ◌++◌, true, false, drop, length, IfOk, IfErr, OnOk};
ghost use Rattle.syntax.specs.Texts.{lines};
ghost use Rattle.elaborate.specs.StimulusText.{AreEntries, FirstOther, HasForm};
ghost use Rattle.elaborate.specs.internal.LineParts.{IsEntry, IsPassed};
ghost use Rattle.elaborate.specs.declared.stimulus.Entry.{Entry};
ghost use Rattle.refusals.specs.declared.elaborate.Fault.TheVariants.{Memory, BadStimulus};

use crate::Fault;
use crate::entry::length_before;
use crate::form::is_entry;
use crate::line::add_line;
use crate::stimulus::Stimulus;
use std::alloc::Global;
use syntax::Items;

/// Entries at the front of a stimulus.
#[derive(Drop)]
pub struct Front {
    pub stimulus: Stimulus,
    /// Whether some are missing behind them. Else they are all.
    pub is_cut: bool,
}

/// Refuses a line that is not empty and has another form.
fn refuse_other(line: u64, text: &[u8]) -> Result<(), Fault>
    ensures ok { OnOk result (IsEntry text.now) }
    ensures err { IfErr result (λ fault. (fault ≡ BadStimulus line) × ¬ IsEntry text.now) }
{
    if is_entry(text) {
        Ok(())
    } else {
        Err(Fault::BadStimulus(line))
    }
}

impl Front {
    /// The first entries of the stimulus that `text` spells: all, or where there are more than `most`, so many.
    ///
    /// All of the text is read, and refused as `Stimulus::read` refuses it. Of lines behind the front nothing is kept.
    pub fn read(alloc: Global, text: &[u8], most: usize) -> Result<Front, Fault>
        ensures entries { IfOk result (λ front. (later : List Entry)
            × AreEntries 1 (lines text.now) (front.stimulus.entries ++ later)
            × (front.is_cut ≡ false → later ≡ []) × (later ≡ [] → front.is_cut ≡ false)) }
        ensures few { IfOk result (λ front. (length front.stimulus.entries ≤ most)
            × (front.is_cut ≡ true → length front.stimulus.entries ≡ most)) }
        ensures fault { IfErr result (λ fault. (fault ≡ Memory)
            ⊎ ((n : ℕ) × (fault ≡ BadStimulus n) × FirstOther 1 (lines text.now) n)) }
    {
        let mut front = Front {
            stimulus: Stimulus {
                entries: Items::new(alloc),
            },
            is_cut: false,
        };
        let mut line: u64 = 1;
        let mut rest = text;
        while !rest.is_empty() {
            let (first, behind) = rest.split_at(length_before(b'\n', rest));
            front.pass(alloc, most, line, first)?;
            line += 1;
            rest = without_first(behind);
        }
        Ok(front)
    }

    /// Adds the entry of a line that is not empty, as long as there are fewer than `most`. A line of another form is
    /// refused.
    fn pass(&mut self, alloc: Global, most: usize, line: u64, text: &[u8]) -> Result<(), Fault>
        ensures passed { OnOk result
            (IsPassed most line text.now self.old.stimulus.entries self.old.is_cut self.new.stimulus.entries
            self.new.is_cut) }
        ensures err { IfErr result (λ fault. (fault ≡ Memory) ⊎ ((fault ≡ BadStimulus line) × ¬ HasForm text.now)) }
    {
        if self.stimulus.entries.len() < most {
            return add_line(alloc, &mut self.stimulus.entries, line, text);
        }
        if text.is_empty() {
            return Ok(());
        }
        self.is_cut = true;
        refuse_other(line, text)
    }
}

/// What stands behind the first byte, if there is one.
fn without_first(text: &[u8]) -> &[u8]
    ensures { result.now ≡ drop 1 text.entry.now }
{
    match text.split_first() {
        Some((_, rest)) => rest,
        None => text,
    }
}
