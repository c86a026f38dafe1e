// Where a record stands, and one word write.

/// Where a region keeps its redo record, by word numbers.
#[derive(Clone, Copy, Debug, PartialEq, Eq)]
pub struct Frame {
    /// The gate: 0, or 1 while the record holds.
    pub gate: u64,
    /// The word that says how many words of the record are in use.
    pub used: u64,
    /// The first word of the record.
    pub start: u64,
    /// The words of the record.
    pub room: u64,
}

/// A word, and the place where it is written.
#[derive(Clone, Copy, Debug, PartialEq, Eq)]
pub struct WordWrite {
    pub at: u64,
    pub word: u64,
}
