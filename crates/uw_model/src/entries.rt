// An entry of a cache.
use uw_base::Bytes;

/// An entry of a cache.
#[derive(Drop)]
pub struct Entry {
    pub key: Bytes,
    pub value: Bytes,
    /// The moment from which it is no longer alive, 0 for never.
    pub dies: u64,
    /// The number of its first block.
    pub first: u64,
}
