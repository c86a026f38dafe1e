// The records of a history, and what a pass knows of one. No value of either is ever made: they are data of proofs.
use std::collections::LinkedList;

/// One entry of a history: the number of the pass that noted it, the moment, and the entry's value.
pub struct Made<E> {
    pub by: u64,
    pub moment: u64,
    pub entry: E,
}

/// What a pass knows of its lock.
pub struct View<E, C> {
    /// The number under which its entries stand.
    pub number: u64,
    /// It may give away the numbers that lie whole steps beyond its own. A view with step 0 has no number.
    pub step: u64,
    /// The history that it has seen.
    pub seen: LinkedList<Made<E>>,
    /// A history that it was told of, until it looks.
    pub told: LinkedList<Made<E>>,
    /// Its own entries.
    pub mine: LinkedList<Made<E>>,
    /// The configuration of the locked value.
    pub conf: Option<C>,
    /// Whether it holds the lock.
    pub holds: bool,
    /// The owner word as it found it when it last took the lock, or as it left it.
    pub word: u64,
}
