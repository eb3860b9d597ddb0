use address::Address;
use system::QualifiedName;

/// A call.
#[derive(Drop)]
pub struct CallEntry {
    /// the name of the procedure that is called, behind the number of each call around and of this one, as the names
    /// that the call makes have them
    pub name: QualifiedName,
    /// the place at which the body of the procedure stands, in the first turn of each loop around it
    pub place: Address,
    /// the line of the call, from 1
    pub line: u64,
}
