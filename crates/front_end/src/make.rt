//! The system of a description and a stimulus. A long stimulus that does not fit is refused by its first entries.
ghost use Rattle.std.specs.Prelude.{◌≡◌, ◌⊎◌, IfOk, IfErr};
ghost use Rattle.front_end.specs.Accepting.{MakesNone, MakesOne};
ghost use Rattle.elaborate.specs.StimulusText.{AreEntries};
ghost use Rattle.syntax.specs.Texts.{lines};
ghost use Rattle.refusals.specs.declared.elaborate.Fault.TheVariants.{Memory};

use elaborate::{Fault, Front, Stimulus, elaborate, refuse_front};
use std::alloc::Global;
use system::System;
use types::Typed;

/// How many entries of a stimulus are made before it is asked whether they fit the ports of the root.
const FIRST_ENTRIES: usize = 65_536;

/// The system that the description makes with a stimulus of this text.
fn made_of(alloc: Global, typed: &Typed, text: &[u8], stimulus: &Stimulus) -> Result<System, Fault>
    requires { AreEntries 1 (lines text.now) stimulus.now.entries }
    ensures system { IfOk result (λ system. MakesOne typed.now text.now system) }
    ensures fault { IfErr result (λ fault. (fault ≡ Memory) ⊎ MakesNone typed.now text.now fault) }
{
    elaborate(alloc, typed, stimulus)
}

/// The same, with all entries of the stimulus made.
fn made_whole(alloc: Global, typed: &Typed, text: &[u8]) -> Result<System, Fault>
    ensures system { IfOk result (λ system. MakesOne typed.now text.now system) }
    ensures fault { IfErr result (λ fault. (fault ≡ Memory) ⊎ MakesNone typed.now text.now fault) }
{
    let stimulus = Stimulus::read(alloc, text)?;
    made_of(alloc, typed, text, &stimulus)
}

/// The system that the description makes with the stimulus of this text. Where one of its first entries does not fit,
/// the others are not made. It is an error if the text is no stimulus, if it does not fit the ports, or if there is no
/// memory.
pub fn make_system(alloc: Global, typed: &Typed, text: &[u8]) -> Result<System, Fault>
    ensures system { IfOk result (λ system. MakesOne typed.now text.now system) }
    ensures fault { IfErr result (λ fault. (fault ≡ Memory) ⊎ MakesNone typed.now text.now fault) }
{
    let front = Front::read(alloc, text, FIRST_ENTRIES)?;
    if !front.is_cut {
        return made_of(alloc, typed, text, &front.stimulus);
    }
    refuse_front(alloc, typed, &front.stimulus)?;
    made_whole(alloc, typed, text)
}
