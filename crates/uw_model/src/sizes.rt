// How much a key and a value may take, and the blocks and the moment that come of it.
ghost use Rattle.std.specs.Prelude.{◌≡◌, ◌≤◌, ◌+◌};
ghost use Rattle.uw_model.specs.Entries.{IsCacheConf, IsEntry, max_value, span, span_of};
ghost use Rattle.uw_model.specs.Calls.{dies_at, is_bad_key, is_too_long};

use crate::{CacheConf, Entry};

/// The most bytes of any value, in whatever configuration.
const LONGEST_VALUE: u64 = 65_536;

/// The most bytes of a value.
pub fn max_value(conf: &CacheConf) -> u64
    requires { IsCacheConf conf.now }
    ensures { result ≡ max_value conf.now }
{
    let room = if conf.bitmap {
        conf.blocks * conf.blocksize
    } else {
        conf.blocksize
    };
    room.min(LONGEST_VALUE)
}

/// How many blocks a value of so many bytes takes, at least one.
pub fn span_of(conf: &CacheConf, len: u64) -> u64
    requires { IsCacheConf conf.now }
    ensures { result ≡ span_of conf.now len }
{
    len.div_ceil(conf.blocksize).max(1)
}

/// How many blocks a value takes.
pub fn span(conf: &CacheConf, value: &[u8]) -> u64
    requires { IsCacheConf conf.now }
    ensures { result ≡ span conf.now value.now }
{
    span_of(conf, value.len() as u64)
}

/// The number of the block behind the last one of an entry.
pub fn end_of(conf: &CacheConf, entry: &Entry) -> u64
    requires conf { IsCacheConf conf.now }
    requires entry { IsEntry conf.now entry.now }
    ensures end { result ≡ entry.now.first + span conf.now entry.now.value }
    ensures within { result ≤ conf.now.blocks }
{
    entry.first + span(conf, entry.value.as_slice())
}

/// Whether a key has no byte, or more than the configuration allows.
pub fn is_bad_key(conf: &CacheConf, key: &[u8]) -> bool
    ensures { result ≡ is_bad_key conf.now key.now }
{
    key.is_empty() || conf.keysize < key.len() as u64
}

/// Whether a value has more bytes than the configuration allows.
pub fn is_too_long(conf: &CacheConf, value: &[u8]) -> bool
    requires { IsCacheConf conf.now }
    ensures { result ≡ is_too_long conf.now value.now }
{
    max_value(conf) < value.len() as u64
}

/// The moment at which an entry dies that is written now, 0 for never.
pub fn dies_at(moment: u64, ttl: u64) -> u64
    ensures { result ≡ dies_at moment ttl }
{
    if ttl == 0 {
        0
    } else {
        moment.saturating_add(ttl)
    }
}
