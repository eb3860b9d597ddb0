ghost use Rattle.std.specs.Prelude.{◌≡◌, ℕ, ◌⊎◌, IfOk, IfErr};
ghost use Rattle.refusals.specs.declared.elaborate.Fault.TheVariants.{Memory, BadStimulus};

use crate::Fault;
use crate::stimulus_front::Front;
use std::alloc::Global;
use syntax::{Items, Name};

/// What the environment does on the ports of the root: an entry for each line that is not empty, in order.
#[derive(Drop)]
pub struct Stimulus {
    pub entries: Items<Entry>,
}

/// A line of a stimulus.
#[derive(Drop)]
pub struct Entry {
    /// The line that it stands on, from 1.
    pub line: u64,
    /// The port.
    pub name: Name,
    pub given: Given,
}

/// What a line of a stimulus gives a port.
#[derive(Drop)]
pub enum Given {
    /// The values to send, in order, for an input port.
    Values(Items<u64>),
    /// How many handshakes to make, up to 65,536, for a sync port.
    Syncs(u32),
}

impl Stimulus {
    ghost use Rattle.syntax.specs.Texts.{lines};
    ghost use Rattle.elaborate.specs.StimulusText.{AreEntries, FirstOther};

    /// The stimulus that `text` spells. A line ends with byte 10, which the last one may lack. It is empty, or it is a
    /// name, ` =` and for each value a space and a number, or a name, ` * ` and a number up to 65,536. The first line
    /// of another form is refused.
    pub fn read(alloc: Global, text: &[u8]) -> Result<Stimulus, Fault>
        ensures entries { IfOk result (λ stimulus. AreEntries 1 (lines text.now) stimulus.entries) }
        ensures fault { IfErr result (λ fault. (fault ≡ Memory)
            ⊎ ((n : ℕ) × (fault ≡ BadStimulus n) × FirstOther 1 (lines text.now) n)) }
    {
        // Each entry takes bytes, so none is missing.
        let front = Front::read(alloc, text, text.len())?;
        Ok(front.stimulus)
    }
}
