//! A rule of the grammar, as what reads it.

ghost use Rattle.parser.specs.internal.Readers.{Reader};
ghost use Rattle.parser.specs.internal.Reads.{place, Reads};

use crate::cursor::Cursor;
use crate::halt::Halt;

/// What reads one thing.
pub trait Rule: Drop {
    type Tree: Drop;

    /// What has to hold before it is asked.
    ghost can_read: { Self → Type 0 };

    ghost reader: { Self → Reader Self.Tree };

    /// The next one.
    fn read(&self, cursor: &mut Cursor<'_, '_>) -> Result<Self::Tree, Halt>
        requires { can_read self.now }
        ensures { Reads (reader self.now (place cursor.old)) result (place cursor.new) };
}
