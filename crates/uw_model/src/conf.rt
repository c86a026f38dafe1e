// The configuration of one cache.
ghost use Rattle.std.specs.Prelude.{◌≡◌, IfOk};

use std::alloc::Global;
use uw_base::{Bytes, Memory};

/// The configuration of one cache: its name, its sizes and its policies.
#[derive(Drop)]
pub struct CacheConf {
    pub name: Bytes,
    /// The most entries, 1 to 1,048,576.
    pub items: u64,
    /// Bytes of a block, a multiple of 8 up to 1,048,576.
    pub blocksize: u64,
    /// Blocks in all, 1 to 16,777,216; as many as items where `bitmap` is not set.
    pub blocks: u64,
    /// The most bytes of a key, 1 to 65,535.
    pub keysize: u64,
    /// Hash chains, 1 to 1,048,576. No answer shows them.
    pub chains: u64,
    /// A value may take several blocks in a row.
    pub bitmap: bool,
    /// A get makes its entry the most recent, and a full cache drops the least recent ones.
    pub purge_lru: bool,
    /// A full cache drops the entries that are no longer alive.
    pub sweep_on_full: bool,
    /// A full cache drops all entries.
    pub clear_on_full: bool,
}

impl CacheConf {
    /// A copy of the configuration.
    pub fn copy(&self, alloc: Global) -> Result<CacheConf, Memory>
        ensures { IfOk result (λ c. c ≡ self.now) }
    {
        Ok(CacheConf {
            name: Bytes::from_slice(alloc, self.name.as_slice())?,
            items: self.items,
            blocksize: self.blocksize,
            blocks: self.blocks,
            keysize: self.keysize,
            chains: self.chains,
            bitmap: self.bitmap,
            purge_lru: self.purge_lru,
            sweep_on_full: self.sweep_on_full,
            clear_on_full: self.clear_on_full,
        })
    }
}
