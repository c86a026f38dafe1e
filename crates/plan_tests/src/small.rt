// The small cache of the tests.
ghost use Rattle.std.specs.Prelude.{◌≡◌};
ghost use Rattle.uw_model.specs.Entries.{IsCacheConf};
ghost use Rattle.plan_tests.specs.SmallSteps.{small_conf};

use std::alloc::Global;
use uw_base::Bytes;
use uw_model::CacheConf;

/// Four items of eight bytes each, on four chains.
pub fn small_cache(alloc: Global) -> CacheConf
    ensures is { result ≡ small_conf }
    ensures conf { IsCacheConf result }
{
    CacheConf {
        name: Bytes::new(alloc),
        items: 4,
        blocksize: 8,
        blocks: 4,
        keysize: 8,
        chains: 4,
        bitmap: false,
        purge_lru: false,
        sweep_on_full: false,
        clear_on_full: false,
    }
}
