// Variables and channels of a system, by name and by number.
ghost use Rattle.std.specs.Prelude.{◌≡◌};
ghost use Rattle.std.specs.Option.{option_copied};
ghost use Rattle.system.specs.Named as named;

use crate::Checked;
use system::QualifiedName;

impl Checked {
    /// The number of the first variable of this name.
    pub fn variable(&self, name: &[u8]) -> Option<u32>
        ensures { result ≡ named.variable_from 0 self.now.variables name.now }
    {
        self.system().variable(name)
    }

    /// The name of the variable of this number.
    pub fn variable_name(&self, number: u32) -> Option<&QualifiedName>
        ensures { option_copied result ≡ named.variable_name_at self.now.variables number }
    {
        self.system().variable_name(number)
    }

    /// The name of the channel of this number.
    pub fn channel_name(&self, number: u32) -> Option<&QualifiedName>
        ensures { option_copied result ≡ named.channel_name_at self.now.channels number }
    {
        self.system().channel_name(number)
    }
}
