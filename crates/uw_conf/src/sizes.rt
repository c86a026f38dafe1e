// The bytes of regions.
ghost use Rattle.std.specs.Prelude.{◌≡◌, ◌≤◌};
ghost use Rattle.std.specs.List.{AllByRecursion};
ghost use Rattle.uw_model.specs.Entries.{IsCacheConf};
ghost use Rattle.uw_model.specs.AreaOps.{IsAreaSize};
ghost use Rattle.uw_conf.specs.Regions.{area_bytes, region_bytes, most_region_bytes};

use uw_model::{CacheConf, area_words, words_of};

/// The most bytes of all regions.
pub const MOST_REGION_BYTES: u64 = 1_073_741_824;

/// The bytes of the caches' regions.
pub fn region_bytes(caches: &[CacheConf]) -> u64
    requires each { AllByRecursion IsCacheConf caches.now }
    requires small { region_bytes caches.now ≤ most_region_bytes }
    ensures { result ≡ region_bytes caches.now }
{
    let mut bytes = 0;
    for conf in caches {
        bytes += 8 * words_of(conf);
    }
    bytes
}

/// The bytes of the areas' regions.
pub fn area_bytes(areas: &[u64]) -> u64
    requires each { AllByRecursion IsAreaSize areas.now }
    requires small { area_bytes areas.now ≤ most_region_bytes }
    ensures { result ≡ area_bytes areas.now }
{
    let mut bytes = 0;
    for size in areas {
        bytes += 8 * area_words(*size);
    }
    bytes
}
