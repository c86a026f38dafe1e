// What is put is read back, and the free items after each call.
ghost use Rattle.std.specs.Prelude.{◌≡◌, ◌≤◌, ◌<◌, ◌∷◌, [], length, drop};
ghost use Rattle.uw_words.specs.Shapes.{IsShape, shape_words};
ghost use Rattle.uw_words.specs.Numbers.{IsNoneOf};
ghost use Rattle.uw_words.specs.Parts.{seen};
ghost use Rattle.uw_words.specs.Plans.{region};
ghost use Rattle.uw_words.specs.Walks.{item_word};
ghost use Rattle.uw_items.specs.Items.{LieInBlocks};
ghost use Rattle.uw_items.specs.FreeList.{IsFreeList};

use std::alloc::Global;
use std::process::Abort;
use std::test::Fail;
use uw_items::{
    Fields, fields_of, give_free, key_of, laws, put_fields, put_key, put_value, take_free, value_of,
};
use uw_outside::Immortal;
use uw_words::{Overlay, Ram, Shape};

// Five items of eleven words, with keys of 24 bytes at most, and eight blocks of 16 bytes.
fn small_shape() -> Shape
    ensures shape { IsShape result }
    ensures region { shape_words result ≡ 500 }
    ensures items { result.n_items ≡ 5 }
    ensures key { result.key_words ≡ 3 }
    ensures blocks { result.n_blocks ≡ 8 }
    ensures block { result.block_words ≡ 2 }
{
    Shape {
        head: 0,
        bitmap: 16,
        chains: 17,
        items: 18,
        stride: 11,
        blocks: 73,
        intent: 89,
        room: 411,
        n_items: 5,
        n_blocks: 8,
        n_chains: 1,
        key_words: 3,
        block_words: 2,
    }
}

// The planned words come to the region.
fn store(rt: &impl Abort, ram: &mut Ram, over: &mut Overlay) {
    for k in 0..over.count() {
        let (at, word) = over.nth(k);
        assert!(rt; at < ram.len());
        let _ = ram.store(at, word, &mut Immortal::new());
    }
    over.clear();
}

// The key that is read once one is put.
fn key_again(
    rt: &impl Abort,
    alloc: Global,
    ram: &mut Ram,
    over: &mut Overlay,
    key: &[u8],
) -> Result<Vec<u8>, Fail> {
    let shape = small_shape();
    assert!(rt; key.len() <= 24);
    assert!(rt; over.spare() >= 5);
    uw_words::laws::spare_words_are_room();
    laws::key_places_are_few();
    put_key(over, &shape, 3, key);
    store(rt, ram, over);
    assert!(rt; ram.len() == 500);
    let link = shape.link_of(3);
    assert!(rt; ram.load(link + 6) <= 24);
    Ok(key_of(alloc, ram, &shape, 3)?.into_vec())
}

#[test]
fn keys_are_read_back(rt: HostRuntime) -> Result<(), Fail> {
    let alloc = rt.alloc();
    let mut ram = Ram::new(alloc, 500)?;
    let mut over = Overlay::new(alloc, 40)?;
    let keys: [&[u8]; 7] = [
        b"a key of 24 bytes, whole",
        b"",
        b"k",
        b"seven b",
        b"eightlet",
        b"nine byte",
        b"another of 24, the bytes",
    ];
    for key in keys {
        let again = key_again(&rt, alloc, &mut ram, &mut over, key)?;
        assert_eq!(rt; again.as_slice(), key);
    }
    Ok(())
}

// The value of an item lies in the eight blocks of two words, as its fields say.
fn lies(rt: &impl Abort, ram: &Ram, shape: &Shape, item: u64)
    requires shape { IsShape shape.now }
    requires region { length ram.now ≡ shape_words shape.now }
    requires item { item < shape.now.n_items }
    requires blocks { shape.now.n_blocks ≡ 8 }
    requires block { shape.now.block_words ≡ 2 }
    ensures { (let reader = region ram.now in
        LieInBlocks shape.now (item_word reader shape.now item 4) (item_word reader shape.now item 5)) }
{
    let link = shape.link_of(item);
    let first = ram.load(link + 4);
    let bytes = ram.load(link + 5);
    assert!(rt; first <= 8);
    assert!(rt; bytes <= 128);
    assert!(rt; 16 * first + bytes <= 128);
}

// The value that is read once one is put into the blocks from the third one on.
fn value_again(
    rt: &impl Abort,
    alloc: Global,
    ram: &mut Ram,
    over: &mut Overlay,
    value: &[u8],
) -> Result<Vec<u8>, Fail> {
    let shape = small_shape();
    assert!(rt; value.len() <= 96);
    assert!(rt; over.spare() >= 15);
    uw_words::laws::spare_words_are_room();
    laws::value_places_are_few();
    put_value(over, &shape, 2, value);
    assert!(rt; over.spare() >= 3);
    let fields = Fields {
        dies: 7,
        first: 2,
        length: value.len() as u64,
    };
    put_fields(over, &shape, 4, &fields);
    assert!(rt; ram.len() == 500);
    assert_eq!(rt; fields_of(ram, over, &shape, 4), fields);
    store(rt, ram, over);
    assert!(rt; ram.len() == 500);
    lies(rt, ram, &shape, 4);
    Ok(value_of(alloc, ram, &shape, 4)?.into_vec())
}

#[test]
fn values_are_read_back(rt: HostRuntime) -> Result<(), Fail> {
    let alloc = rt.alloc();
    let mut ram = Ram::new(alloc, 500)?;
    let mut over = Overlay::new(alloc, 40)?;
    let values: [&[u8]; 7] = [
        b"",
        b"v",
        b"eightlet",
        b"nine byte",
        b"a block of bytes",
        b"three blocks and a part of a fourth: fifty-one byte",
        b"shorter than before",
    ];
    for value in values {
        let again = value_again(&rt, alloc, &mut ram, &mut over, value)?;
        assert_eq!(rt; again.as_slice(), value);
    }
    Ok(())
}

// No item is free, as the header's word says.
fn begins(rt: &impl Abort, ram: &Ram, over: &Overlay, shape: &Shape)
    requires shape { IsShape shape.now }
    requires region { length ram.now ≡ shape_words shape.now }
    ensures { IsFreeList (seen over.now ram.now) shape.now [] }
{
    assert!(rt; over.load(ram, shape.head + 8) == 0);
}

// An item joins the free ones, which are these.
fn gives(rt: &impl Abort, ram: &Ram, over: &mut Overlay, shape: &Shape, item: u64, list: &[u64])
    requires shape { IsShape shape.now }
    requires region { length ram.now ≡ shape_words shape.now }
    requires item { item < shape.now.n_items }
    requires list { IsFreeList (seen over.old ram.now) shape.now list.now }
    requires taken { IsNoneOf list.now item }
    ensures { IsFreeList (seen over.new ram.now) shape.now (item ∷ list.now) }
{
    assert!(rt; over.spare() >= 2);
    uw_words::laws::spare_words_are_room();
    give_free(ram, over, shape, item);
    let _len = list.len();
}

// The first of the free items, which are these, is taken: none where no item is free.
fn takes(rt: &impl Abort, ram: &Ram, over: &mut Overlay, shape: &Shape, list: &[u64])
    requires shape { IsShape shape.now }
    requires region { length ram.now ≡ shape_words shape.now }
    requires list { IsFreeList (seen over.old ram.now) shape.now list.now }
    ensures { IsFreeList (seen over.new ram.now) shape.now (drop 1 list.now) }
{
    assert!(rt; over.spare() >= 1);
    uw_words::laws::spare_words_are_room();
    laws::take_places_are_few();
    assert_eq!(rt; take_free(ram, over, shape), list.first().copied());
}

#[test]
fn the_free_items_after_each_call(rt: HostRuntime) -> Result<(), Fail> {
    let shape = small_shape();
    let ram = Ram::new(rt.alloc(), 500)?;
    let mut over = Overlay::new(rt.alloc(), 40)?;
    begins(&rt, &ram, &over, &shape);
    takes(&rt, &ram, &mut over, &shape, &[]);
    gives(&rt, &ram, &mut over, &shape, 4, &[]);
    takes(&rt, &ram, &mut over, &shape, &[4]);
    takes(&rt, &ram, &mut over, &shape, &[]);
    gives(&rt, &ram, &mut over, &shape, 2, &[]);
    gives(&rt, &ram, &mut over, &shape, 0, &[2]);
    takes(&rt, &ram, &mut over, &shape, &[0, 2]);
    gives(&rt, &ram, &mut over, &shape, 4, &[2]);
    gives(&rt, &ram, &mut over, &shape, 1, &[4, 2]);
    gives(&rt, &ram, &mut over, &shape, 0, &[1, 4, 2]);
    gives(&rt, &ram, &mut over, &shape, 3, &[0, 1, 4, 2]);
    takes(&rt, &ram, &mut over, &shape, &[3, 0, 1, 4, 2]);
    takes(&rt, &ram, &mut over, &shape, &[0, 1, 4, 2]);
    takes(&rt, &ram, &mut over, &shape, &[1, 4, 2]);
    takes(&rt, &ram, &mut over, &shape, &[4, 2]);
    takes(&rt, &ram, &mut over, &shape, &[2]);
    takes(&rt, &ram, &mut over, &shape, &[]);
    Ok(())
}
