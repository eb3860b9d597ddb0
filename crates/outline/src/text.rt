// The outline as text, in lines.
ghost use Rattle.std.specs.Prelude.{◌≡◌, ◌++◌, OnOk};
ghost use Rattle.outline.specs.OutlineText as model;
ghost use Rattle.described.specs.Told.{TellsNothing};
ghost use Rattle.described.specs.declared.Described.{Described};

use crate::branch_text::write_branches;
use crate::channel_text::write_channels;
use crate::outline::Outline;
use crate::source_text::write_source;
use crate::variable_text::write_variables;
use described::Described;
use std::alloc::AllocError;

impl Outline {
    /// Adds the text, without what only the source tells: the branches with the ends that they use, the variables, and
    /// the channels with who uses them. Without memory a part of it may be there.
    pub fn write_to(&self, out: &mut Vec<u8>) -> Result<(), AllocError>
        ensures { OnOk result ((d : Described) × TellsNothing d
            × (out.new.items ≡ out.old.items ++ model.system_text self.now d)) }
    {
        let nothing = Described::nothing(*out.allocator());
        write_system(self, &nothing, out)
    }

    /// Adds the text, with the calls that are branches and the lines of declarations, and behind it the calls and the
    /// enumerations. Without memory a part of it may be there.
    pub fn write_with(&self, described: &Described, out: &mut Vec<u8>) -> Result<(), AllocError>
        ensures { OnOk result (out.new.items ≡ out.old.items ++ model.outline_text self.now described.now) }
    {
        write_system(self, described, out)?;
        write_source(described, out)
    }
}

/// Adds what the system tells.
fn write_system(
    outline: &Outline,
    described: &Described,
    out: &mut Vec<u8>,
) -> Result<(), AllocError>
    ensures { OnOk result (out.new.items ≡ out.old.items ++ model.system_text outline.now described.now) }
{
    write_branches(outline, described, out)?;
    write_variables(outline, described, out)?;
    write_channels(outline, described, out)
}
