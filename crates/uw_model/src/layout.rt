// The words of the region of a cache, and where its parts begin.
ghost use Rattle.std.specs.Prelude.{◌≡◌, ◌≤◌, ◌+◌};
ghost use Rattle.uw_model.specs.Entries.{IsCacheConf};
ghost use Rattle.uw_model.specs.Layout.{bitmap_words, block_words, item_words, key_words, value_words};
ghost use Rattle.uw_model.specs.Layout.{layout_of, plan_room, record_words, words_of};

use crate::CacheConf;
use crate::sizes::max_value;

/// The words of a region's header.
pub const HEAD_WORDS: u64 = 16;

/// The words of an item before those of its key.
pub const FIXED_ITEM_WORDS: u64 = 8;

/// Where the parts of a cache's region begin, by word numbers from 0. The header stands before them.
#[derive(Clone, Copy, Debug, PartialEq, Eq)]
pub struct Layout {
    pub bitmap: u64,
    pub chains: u64,
    pub items: u64,
    pub blocks: u64,
    /// The redo record.
    pub intent: u64,
}

/// The words of a key.
pub fn key_words(conf: &CacheConf) -> u64
    requires { IsCacheConf conf.now }
    ensures words { result ≡ key_words conf.now }
    ensures few { result ≤ 8192 }
{
    conf.keysize.div_ceil(8)
}

/// The words of a block.
pub fn block_words(conf: &CacheConf) -> u64
    requires { IsCacheConf conf.now }
    ensures words { result ≡ block_words conf.now }
    ensures few { result ≤ 131072 }
{
    conf.blocksize / 8
}

/// The words of an item.
pub fn item_words(conf: &CacheConf) -> u64
    requires { IsCacheConf conf.now }
    ensures words { result ≡ item_words conf.now }
    ensures few { result ≤ 8200 }
{
    FIXED_ITEM_WORDS + key_words(conf)
}

// The words of the longest value.
fn value_words(conf: &CacheConf) -> u64
    requires { IsCacheConf conf.now }
    ensures words { result ≡ value_words conf.now }
    ensures few { result ≤ 8192 }
{
    max_value(conf).div_ceil(8)
}

// The words of the bitmap.
fn bitmap_words(conf: &CacheConf) -> u64
    requires { IsCacheConf conf.now }
    ensures words { result ≡ bitmap_words conf.now }
    ensures few { result ≤ 262144 }
{
    conf.blocks.div_ceil(64)
}

/// How many words a call on a cache may plan.
pub fn plan_room(conf: &CacheConf) -> u64
    requires { IsCacheConf conf.now }
    ensures words { result ≡ plan_room conf.now }
    ensures few { result ≤ 17055792 }
{
    32 + 16 * (conf.items + 1) + key_words(conf) + value_words(conf) + bitmap_words(conf)
}

/// Where the parts of a cache's region begin.
pub fn layout_of(conf: &CacheConf) -> Layout
    requires { IsCacheConf conf.now }
    ensures layout { result ≡ layout_of conf.now }
    ensures few { result.intent + record_words conf.now ≤ 4398046511104 }
{
    let chains = HEAD_WORDS + bitmap_words(conf);
    let items = chains + conf.chains;
    let blocks = items + conf.items * item_words(conf);
    Layout {
        bitmap: HEAD_WORDS,
        chains,
        items,
        blocks,
        intent: blocks + conf.blocks * block_words(conf),
    }
}

/// The words of a cache's region.
pub fn words_of(conf: &CacheConf) -> u64
    requires { IsCacheConf conf.now }
    ensures words { result ≡ words_of conf.now }
    ensures few { result ≤ 4398046511104 }
{
    layout_of(conf).intent + 3 * plan_room(conf)
}
