// Where the parts of a region stand, and the words of one without an entry.
use crate::small::small_cache;
use std::test::Fail;
use uw_intent::Frame;
use uw_plan::{blank_region, frame_of, shape_of, words_of};
use uw_words::Shape;

/// The words of a cache of four items of eight bytes each without an entry, up to its redo record.
const BLANK: [u64; 61] = [
    1, 4, 4, 1, 1, 4, 0, 0, 21, 0, 0, 0, 0, 0, 0, 0, // header: four sizes, no item in use, the first free one
    0, // bitmap
    0, 0, 0, 0, // chains
    0, 0, 30, 0, 0, 0, 0, 0, 0, // item 0: the next free one is item 1
    0, 0, 39, 0, 0, 0, 0, 0, 0, // item 1
    0, 0, 48, 0, 0, 0, 0, 0, 0, // item 2
    0, 0, 0, 0, 0, 0, 0, 0, 0, // item 3: the last one
    0, 0, 0, 0, // blocks
];

#[test]
fn the_parts_of_a_region_follow_one_another(rt: HostRuntime) {
    let cache = small_cache(rt.alloc());
    let shape = shape_of(&cache);
    assert_eq!(rt;
        shape,
        Shape {
            head: 0,
            bitmap: 16,
            chains: 17,
            items: 21,
            stride: 9,
            blocks: 57,
            intent: 61,
            room: 345,
            n_items: 4,
            n_blocks: 4,
            n_chains: 4,
            key_words: 1,
            block_words: 1,
        }
    );
    assert_eq!(rt; words_of(&cache), 406);
    assert_eq!(rt;
        frame_of(&shape),
        Frame {
            gate: 10,
            used: 11,
            start: 61,
            room: 345,
        }
    );
}

#[test]
fn a_blank_region_has_these_words(rt: HostRuntime) -> Result<(), Fail> {
    let cache = small_cache(rt.alloc());
    let ram = blank_region(rt.alloc(), &cache)?;
    assert_eq!(rt; ram.len(), 406);
    for at in 0..ram.len().min(406) {
        let word = if at < 61 { BLANK[at as usize] } else { 0 };
        assert_eq!(rt; ram.load(at), word);
    }
    Ok(())
}
