// The words of the regions of caches and areas, and where the parts of one begin.
ghost use Rattle.uw_model.specs.Entries.{IsCacheConf};

use std::alloc::Global;
use uw_base::Bytes;
use uw_model::{
    CacheConf, FIXED_ITEM_WORDS, HEAD_WORDS, Layout, area_plan_room, area_words, block_words,
    byte_words, item_words, key_words, layout_of, plan_room, words_of,
};

/// A cache of 20,000 items for which a configuration says nothing else.
fn default_cache(alloc: Global) -> CacheConf
    ensures { IsCacheConf result }
{
    CacheConf {
        name: Bytes::new(alloc),
        items: 20_000,
        blocksize: 65_536,
        blocks: 20_000,
        keysize: 2_048,
        chains: 20_000,
        bitmap: false,
        purge_lru: false,
        sweep_on_full: false,
        clear_on_full: false,
    }
}

/// A cache whose numbers are no multiples: the key of 9 bytes takes two words, the 65 blocks two words of the bitmap,
/// and the longest value is that of all blocks.
fn small_cache(alloc: Global) -> CacheConf
    ensures { IsCacheConf result }
{
    CacheConf {
        name: Bytes::new(alloc),
        items: 3,
        blocksize: 24,
        blocks: 65,
        keysize: 9,
        chains: 7,
        bitmap: true,
        purge_lru: false,
        sweep_on_full: false,
        clear_on_full: false,
    }
}

#[test]
fn a_region_has_its_words(rt: HostRuntime) {
    let cache = default_cache(rt.alloc());
    assert_eq!(rt;
        (key_words(&cache), block_words(&cache), item_words(&cache)),
        (256, 8_192, 264)
    );
    assert_eq!(rt; plan_room(&cache), 328_809);
    assert_eq!(rt; words_of(&cache), 170_126_756);
    let small = small_cache(rt.alloc());
    assert_eq!(rt;
        (key_words(&small), block_words(&small), item_words(&small)),
        (2, 3, 10)
    );
    assert_eq!(rt; plan_room(&small), 295);
    assert_eq!(rt; words_of(&small), 1_135);
}

#[test]
fn the_parts_of_a_region_have_their_places(rt: HostRuntime) {
    let small = Layout {
        bitmap: 16,
        chains: 18,
        items: 25,
        blocks: 55,
        intent: 250,
    };
    assert_eq!(rt; layout_of(&small_cache(rt.alloc())), small);
    assert_eq!(rt; (HEAD_WORDS, FIXED_ITEM_WORDS), (16, 8));
}

#[test]
fn the_region_of_an_area_has_its_words(rt: HostRuntime) {
    assert_eq!(rt;
        (byte_words(4_096), area_plan_room(4_096), area_words(4_096)),
        (512, 520, 2_088)
    );
    assert_eq!(rt;
        (byte_words(1), area_plan_room(1), area_words(1)),
        (1, 9, 44)
    );
    assert_eq!(rt;
        (byte_words(65_545), area_plan_room(65_545)),
        (8_194, 8_202)
    );
    assert_eq!(rt;
        (byte_words(65_553), area_plan_room(65_553)),
        (8_195, 8_202)
    );
}
