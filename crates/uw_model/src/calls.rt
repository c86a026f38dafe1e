// The calls of a cache, and what they answer.
use uw_base::{Bytes, BytesList};

/// What a number call does to the number of a key.
#[derive(Clone, Copy, Debug, PartialEq, Eq)]
pub enum MathOp {
    Inc,
    Dec,
    Mul,
    /// Divides, toward zero.
    Div,
}

/// A call of a cache. A `ttl` is in seconds, and 0 means that the entry never dies.
#[derive(Drop)]
pub enum Call {
    /// The value of a key.
    Get {
        key: Bytes,
    },
    /// Writes the value of a key that has no alive entry.
    Set {
        key: Bytes,
        value: Bytes,
        ttl: u64,
    },
    /// Writes the value of a key, whether it has an entry or not.
    Update {
        key: Bytes,
        value: Bytes,
        ttl: u64,
    },
    /// Removes the alive entry of a key.
    Del {
        key: Bytes,
    },
    /// Whether a key has an alive entry. Never a use.
    Exists {
        key: Bytes,
    },
    /// Removes all entries.
    Clear,
    /// The number of a key, 0 where it has no alive entry. Never a use.
    Num {
        key: Bytes,
    },
    /// Changes the number of a key by an amount. A `ttl` of 0 leaves the moment at which an alive entry dies.
    Math {
        op: MathOp,
        key: Bytes,
        by: i64,
        ttl: u64,
    },
    /// The keys of the alive entries, the most recent first.
    Keys,
    /// Removes the entries that are not alive, and counts them.
    Sweep,
}

/// What a cache answers.
#[derive(Drop)]
pub enum Answer {
    Value(Bytes),
    Missing,
    Done,
    Exists,
    Full,
    KeyLength,
    TooLong,
    NotNumber,
    Range,
    ZeroDivisor,
    Number(i64),
    Flag(bool),
    Keys(BytesList),
}
