// A chain of up to five items, under each call at each place.
ghost use Rattle.std.specs.Prelude.{◌≡◌, ◌<◌, ◌∷◌, [], length};
ghost use Rattle.uw_words.specs.Shapes.{IsShape, shape_words};
ghost use Rattle.uw_words.specs.Numbers.{IsOneOf, IsNoneOf, without_number};
ghost use Rattle.uw_words.specs.Parts.{seen};
ghost use Rattle.uw_words.specs.Records.{HoldsKey};
ghost use Rattle.uw_chains.specs.Chains.{IsChains};

use std::alloc::Global;
use std::process::Abort;
use std::test::Fail;
use uw_base::{Memory, djb33x};
use uw_chains::{find, link, unlink};
use uw_words::{Overlay, Ram, Shape, first_word};

// One chain, and four items of nine words from word 18 on.
fn small_shape() -> Shape
    ensures shape { IsShape result }
    ensures region { shape_words result ≡ 486 }
    ensures items { result.n_items ≡ 4 }
    ensures chain { result.n_chains ≡ 1 }
{
    Shape {
        head: 0,
        bitmap: 16,
        chains: 17,
        items: 18,
        stride: 9,
        blocks: 54,
        intent: 86,
        room: 400,
        n_items: 4,
        n_blocks: 4,
        n_chains: 1,
        key_words: 1,
        block_words: 8,
    }
}

// An item is given a key of eight bytes at most.
fn keyed(rt: &impl Abort, over: &mut Overlay, shape: &Shape, item: u64, key: &[u8])
    requires shape { IsShape shape.now }
    requires item { item < shape.now.n_items }
{
    let link = shape.link_of(item);
    assert!(rt; over.spare() >= 3);
    over.put(link + 6, key.len() as u64);
    assert!(rt; over.spare() >= 2);
    over.put(link + 7, djb33x(key));
    assert!(rt; over.spare() >= 1);
    over.put(link + 8, first_word(key));
}

// The item holds the key, as its words say.
fn holds(rt: &impl Abort, ram: &Ram, over: &Overlay, shape: &Shape, item: u64, key: &[u8])
    requires shape { IsShape shape.now }
    requires region { length ram.now ≡ shape_words shape.now }
    requires item { item < shape.now.n_items }
    ensures { HoldsKey (seen over.now ram.now) shape.now item key.now }
{
    let link = shape.link_of(item);
    assert!(rt; shape.key_words == 1);
    assert!(rt; key.len() <= 8);
    assert!(rt; over.load(ram, link + 6) == key.len() as u64);
    assert!(rt; over.load(ram, link + 7) == djb33x(key));
    assert!(rt; over.load(ram, link + 8) == first_word(key));
}

// The chain has no item, as its word says.
fn begins(rt: &impl Abort, ram: &Ram, over: &Overlay, shape: &Shape)
    requires shape { IsShape shape.now }
    requires region { length ram.now ≡ shape_words shape.now }
    requires chain { shape.now.n_chains ≡ 1 }
    ensures { IsChains (seen over.now ram.now) shape.now (λ _. []) }
{
    assert!(rt; over.load(ram, shape.chains) == 0);
}

// An item joins the chain, which has these items.
fn joins(
    rt: &impl Abort,
    ram: &Ram,
    over: &mut Overlay,
    shape: &Shape,
    item: u64,
    key: &[u8],
    list: &[u64],
)
    requires shape { IsShape shape.now }
    requires region { length ram.now ≡ shape_words shape.now }
    requires item { item < shape.now.n_items }
    requires chain { shape.now.n_chains ≡ 1 }
    requires list { IsChains (seen over.old ram.now) shape.now (λ _. list.now) }
    requires unchained { IsNoneOf list.now item }
    ensures { IsChains (seen over.new ram.now) shape.now (λ _. item ∷ list.now) }
{
    holds(rt, ram, over, shape, item, key);
    assert!(rt; over.spare() >= 2);
    link(ram, over, shape, item);
    let _len = list.len();
}

// An item leaves the chain, which has these items.
fn leaves(rt: &impl Abort, ram: &Ram, over: &mut Overlay, shape: &Shape, item: u64, list: &[u64])
    requires shape { IsShape shape.now }
    requires region { length ram.now ≡ shape_words shape.now }
    requires item { item < shape.now.n_items }
    requires chain { shape.now.n_chains ≡ 1 }
    requires list { IsChains (seen over.old ram.now) shape.now (λ _. list.now) }
    requires chained { IsOneOf list.now item }
    ensures { IsChains (seen over.new ram.now) shape.now (λ _. without_number list.now item) }
{
    assert!(rt; over.spare() >= 1);
    unlink(ram, over, shape, item);
    let _len = list.len();
}

// The chain has these items, and of the keys just those are found which they hold: the item of each key is its place.
fn finds(rt: &impl Abort, ram: &Ram, over: &Overlay, shape: &Shape, keys: &[&[u8]], list: &[u64])
    requires shape { IsShape shape.now }
    requires region { length ram.now ≡ shape_words shape.now }
    requires list { IsChains (seen over.now ram.now) shape.now (λ _. list.now) }
{
    for k in 0..keys.len() {
        let item = k as u64;
        let want = if list.contains(&item) {
            Some(item)
        } else {
            None
        };
        assert_eq!(rt; find(ram, over, shape, keys[k]), want, "{k}");
    }
}

// Two keys of one hash, a short one, and one of eight bytes.
const KEYS: [&[u8]; 4] = [b"ap", b"g6", b"k", b"eightlet"];

#[test]
fn the_chain_after_each_call(rt: HostRuntime) -> Result<(), Fail> {
    let shape = small_shape();
    let ram = Ram::new(rt.alloc(), 486)?;
    let mut over = Overlay::new(rt.alloc(), 40)?;
    for k in 0..4 {
        keyed(&rt, &mut over, &shape, k, KEYS[k as usize]);
    }
    begins(&rt, &ram, &over, &shape);
    finds(&rt, &ram, &over, &shape, &KEYS, &[]);
    joins(&rt, &ram, &mut over, &shape, 1, KEYS[1], &[]);
    finds(&rt, &ram, &over, &shape, &KEYS, &[1]);
    joins(&rt, &ram, &mut over, &shape, 0, KEYS[0], &[1]);
    joins(&rt, &ram, &mut over, &shape, 3, KEYS[3], &[0, 1]);
    finds(&rt, &ram, &over, &shape, &KEYS, &[3, 0, 1]);
    leaves(&rt, &ram, &mut over, &shape, 0, &[3, 0, 1]);
    finds(&rt, &ram, &over, &shape, &KEYS, &[3, 1]);
    leaves(&rt, &ram, &mut over, &shape, 1, &[3, 1]);
    joins(&rt, &ram, &mut over, &shape, 2, KEYS[2], &[3]);
    leaves(&rt, &ram, &mut over, &shape, 2, &[2, 3]);
    finds(&rt, &ram, &over, &shape, &KEYS, &[3]);
    leaves(&rt, &ram, &mut over, &shape, 3, &[3]);
    finds(&rt, &ram, &over, &shape, &KEYS, &[]);
    Ok(())
}

// One chain, and five items of nine words from word 18 on.
fn shape_of_five() -> Shape
    ensures shape { IsShape result }
    ensures region { shape_words result ≡ 495 }
    ensures items { result.n_items ≡ 5 }
    ensures chain { result.n_chains ≡ 1 }
{
    Shape {
        head: 0,
        bitmap: 16,
        chains: 17,
        items: 18,
        stride: 9,
        blocks: 63,
        intent: 95,
        room: 400,
        n_items: 5,
        n_blocks: 4,
        n_chains: 1,
        key_words: 1,
        block_words: 8,
    }
}

const FIVE_KEYS: [&[u8]; 5] = [b"ap", b"g6", b"k", b"eightlet", b"z"];

// One of five items leaves its chain, which has these then.
fn one_leaves(rt: &impl Abort, alloc: Global, item: u64, rest: &[u64]) -> Result<(), Memory>
    requires item { item < 5 }
    requires listed { IsOneOf (4 ∷ 3 ∷ 2 ∷ 1 ∷ 0 ∷ []) item }
    requires rest { rest.now ≡ without_number (4 ∷ 3 ∷ 2 ∷ 1 ∷ 0 ∷ []) item }
{
    let shape = shape_of_five();
    let ram = Ram::new(alloc, 495)?;
    let mut over = Overlay::new(alloc, 40)?;
    for k in 0..5 {
        keyed(rt, &mut over, &shape, k, FIVE_KEYS[k as usize]);
    }
    begins(rt, &ram, &over, &shape);
    joins(rt, &ram, &mut over, &shape, 0, FIVE_KEYS[0], &[]);
    joins(rt, &ram, &mut over, &shape, 1, FIVE_KEYS[1], &[0]);
    joins(rt, &ram, &mut over, &shape, 2, FIVE_KEYS[2], &[1, 0]);
    joins(rt, &ram, &mut over, &shape, 3, FIVE_KEYS[3], &[2, 1, 0]);
    joins(rt, &ram, &mut over, &shape, 4, FIVE_KEYS[4], &[3, 2, 1, 0]);
    finds(rt, &ram, &over, &shape, &FIVE_KEYS, &[4, 3, 2, 1, 0]);
    leaves(rt, &ram, &mut over, &shape, item, &[4, 3, 2, 1, 0]);
    finds(rt, &ram, &over, &shape, &FIVE_KEYS, rest);
    Ok(())
}

#[test]
fn each_of_five_items_leaves_its_chain(rt: HostRuntime) -> Result<(), Fail> {
    one_leaves(&rt, rt.alloc(), 4, &[3, 2, 1, 0])?;
    one_leaves(&rt, rt.alloc(), 3, &[4, 2, 1, 0])?;
    one_leaves(&rt, rt.alloc(), 2, &[4, 3, 1, 0])?;
    one_leaves(&rt, rt.alloc(), 1, &[4, 3, 2, 0])?;
    one_leaves(&rt, rt.alloc(), 0, &[4, 3, 2, 1])?;
    Ok(())
}
