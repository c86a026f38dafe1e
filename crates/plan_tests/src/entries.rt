// Entries are added and dropped by hand: the words that are planned for it, written out from docs/REGION.md.
ghost use Rattle.std.specs.Prelude.{◌≡◌, length};

use crate::small::small_cache;
use std::process::Abort;
use std::test::Fail;
use uw_items::Fields;
use uw_plan::{add_entry, blank_region, drop_entry};
use uw_words::{Overlay, Ram};

/// The words with `a` set to `one`.
const ONE: [u64; 61] = [
    1, 4, 4, 1, 1, 4, 21, 21, 30, 1, 0, 0, 0, 0, 0, 0, // header: one item in use, the first free one is item 1
    1, // bitmap
    21, 0, 0, 0, // chains
    0, 0, 0, 0, 0, 3, 1, 177604, 97, // item 0: a
    0, 0, 39, 0, 0, 0, 0, 0, 0, // item 1: free
    0, 0, 48, 0, 0, 0, 0, 0, 0, // item 2: free
    0, 0, 0, 0, 0, 0, 0, 0, 0, // item 3: free
    6647407, 0, 0, 0, // blocks
];

/// The words of the example: then `b` was set to `two`, up to the moment 100.
pub const TWO: [u64; 61] = [
    1, 4, 4, 1, 1, 4, 30, 21, 39, 2, 0, 0, 0, 0, 0, 0, // header
    3, // bitmap
    21, 0, 0, 30, // chains
    0, 30, 0, 0, 0, 3, 1, 177604, 97, // item 0: a
    0, 0, 21, 100, 1, 3, 1, 177607, 98, // item 1: b
    0, 0, 48, 0, 0, 0, 0, 0, 0, // item 2: free
    0, 0, 0, 0, 0, 0, 0, 0, 0, // item 3: free
    6647407, 7305076, 0, 0, // blocks
];

/// The value `eightlet` as a word.
const EIGHTLET: u64 = 8_387_229_128_271_030_629;

/// Then `e` was set to `eightlet`: it falls on the chain of `a`.
const THREE: [u64; 61] = [
    1, 4, 4, 1, 1, 4, 39, 21, 48, 3, 0, 0, 0, 0, 0, 0, // header
    7, // bitmap
    39, 0, 0, 30, // chains
    0, 30, 0, 0, 0, 3, 1, 177604, 97, // item 0: a
    0, 39, 21, 100, 1, 3, 1, 177607, 98, // item 1: b
    21, 0, 30, 0, 2, 8, 1, 177600, 101, // item 2: e
    0, 0, 0, 0, 0, 0, 0, 0, 0, // item 3: free
    6647407, 7305076, EIGHTLET, 0, // blocks
];

/// Then `a` left: of its item the link of the next free one alone changes.
const DROPPED: [u64; 61] = [
    1, 4, 4, 1, 1, 4, 39, 30, 21, 2, 0, 0, 0, 0, 0, 0, // header
    6, // bitmap
    39, 0, 0, 30, // chains
    0, 30, 48, 0, 0, 3, 1, 177604, 97, // item 0: free
    0, 39, 0, 100, 1, 3, 1, 177607, 98, // item 1: b
    0, 0, 30, 0, 2, 8, 1, 177600, 101, // item 2: e
    0, 0, 0, 0, 0, 0, 0, 0, 0, // item 3: free
    6647407, 7305076, EIGHTLET, 0, // blocks
];

/// These words are seen, so many of them planned.
fn sees(rt: &impl Abort, ram: &Ram, over: &Overlay, words: &[u64; 61], count: u64)
    ensures { length over.now.writes ≡ count }
{
    for at in 0..ram.len().min(61) {
        assert_eq!(rt; over.load(ram, at), words[at as usize], "at {at}");
    }
    assert!(rt; over.count() == count);
}

#[test]
fn entries_come_and_go_by_these_words(rt: HostRuntime) -> Result<(), Fail> {
    let conf = small_cache(rt.alloc());
    let ram = blank_region(rt.alloc(), &conf)?;
    let mut over = Overlay::new(rt.alloc(), 115)?;
    let fields = Fields {
        dies: 0,
        first: 0,
        length: 3,
    };
    add_entry(&ram, &conf, &mut over, b"a", b"one", &fields);
    sees(&rt, &ram, &over, &ONE, 16);
    let fields = Fields {
        dies: 100,
        first: 1,
        length: 3,
    };
    add_entry(&ram, &conf, &mut over, b"b", b"two", &fields);
    sees(&rt, &ram, &over, &TWO, 27);
    let fields = Fields {
        dies: 0,
        first: 2,
        length: 8,
    };
    add_entry(&ram, &conf, &mut over, b"e", b"eightlet", &fields);
    sees(&rt, &ram, &over, &THREE, 37);
    assert!(rt; over.load(&ram, 7) == 21);
    drop_entry(&ram, &conf, &mut over, 0);
    sees(&rt, &ram, &over, &DROPPED, 37);
    Ok(())
}
