// Values that are no lists.

/// A value that is no list.
#[derive(Clone, Copy)]
pub enum Item<'a> {
    /// a string. Bytes that are no UTF-8 are read as U+FFFD
    Text(&'a [u8]),
    /// a number
    Number(u64),
    /// a number, or -1 for none
    Optional(Option<u64>),
}
