// What seats at the word know. No value of these is made.
use crate::Entry;
use std::collections::LinkedList;

/// The pass of this number has seen this history, has made these calls, and then says these.
pub struct Claimed<C, R> {
    pub number: u64,
    pub seen: LinkedList<Entry<C, R>>,
    pub own: LinkedList<Entry<C, R>>,
    pub says: LinkedList<Entry<C, R>>,
}

/// The seat that notes the history: how many passes there are, and what one of them claims.
pub struct Keeping<O, C, R> {
    pub opening: O,
    pub made: u64,
    pub noted: LinkedList<Entry<C, R>>,
    pub claim: Claimed<C, R>,
}

/// A pass: the history that it has seen, its own calls, what it has announced, and a beginning of the history that it
/// was told.
pub struct Passing<O, C, R> {
    pub opening: O,
    pub number: u64,
    pub seen: LinkedList<Entry<C, R>>,
    pub own: LinkedList<Entry<C, R>>,
    pub announced: LinkedList<Entry<C, R>>,
    pub told: LinkedList<Entry<C, R>>,
}

/// What one seat knows.
pub enum View<O, C, R> {
    Nobody,
    Keeper(Keeping<O, C, R>),
    Speaker(Passing<O, C, R>),
    /// a beginning of the history, from one seat to another
    Letter(LinkedList<Entry<C, R>>),
    /// what a pass claims, on its way to the keeper
    Claim(Claimed<C, R>),
}
