// The list after each call, and the words that hold it.
ghost use Rattle.std.specs.Prelude.{◌≡◌, ◌<◌, ◌+◌, ◌∷◌, [], length};
ghost use Rattle.uw_words.specs.Shapes.{IsShape, shape_words};
ghost use Rattle.uw_words.specs.Numbers.{IsOneOf, IsNoneOf, without_number};
ghost use Rattle.uw_words.specs.Parts.{seen};
ghost use Rattle.uw_recency.specs.Recency.{IsRecency};

use std::alloc::Global;
use std::process::Abort;
use std::test::Fail;
use uw_base::Memory;
use uw_recency::{last, newest, older, push_front, take_out, to_front};
use uw_words::{Overlay, Ram, Shape};

// Four items of nine words, from word 21 on.
fn small_shape() -> Shape
    ensures shape { IsShape result }
    ensures region { shape_words result ≡ 489 }
    ensures items { result.n_items ≡ 4 }
{
    Shape {
        head: 0,
        bitmap: 16,
        chains: 17,
        items: 21,
        stride: 9,
        blocks: 57,
        intent: 89,
        room: 400,
        n_items: 4,
        n_blocks: 4,
        n_chains: 4,
        key_words: 1,
        block_words: 8,
    }
}

// An item comes before the items of the list.
fn front(rt: &impl Abort, ram: &Ram, over: &mut Overlay, shape: &Shape, item: u64, list: &[u64])
    requires shape { IsShape shape.now }
    requires region { length ram.now ≡ shape_words shape.now }
    requires item { item < shape.now.n_items }
    requires list { IsRecency (seen over.old ram.now) shape.now list.now }
    requires unlisted { IsNoneOf list.now item }
    ensures { IsRecency (seen over.new ram.now) shape.now (item ∷ list.now) }
{
    assert!(rt; over.spare() >= 4);
    push_front(ram, over, shape, item);
}

// An item of the list leaves it.
fn leave(rt: &impl Abort, ram: &Ram, over: &mut Overlay, shape: &Shape, item: u64, list: &[u64])
    requires shape { IsShape shape.now }
    requires region { length ram.now ≡ shape_words shape.now }
    requires item { item < shape.now.n_items }
    requires list { IsRecency (seen over.old ram.now) shape.now list.now }
    requires listed { IsOneOf list.now item }
    ensures { IsRecency (seen over.new ram.now) shape.now (without_number list.now item) }
{
    assert!(rt; over.spare() >= 4);
    take_out(ram, over, shape, item);
}

// An item of the list comes before the others.
fn again(rt: &impl Abort, ram: &Ram, over: &mut Overlay, shape: &Shape, item: u64, list: &[u64])
    requires shape { IsShape shape.now }
    requires region { length ram.now ≡ shape_words shape.now }
    requires item { item < shape.now.n_items }
    requires list { IsRecency (seen over.old ram.now) shape.now list.now }
    requires listed { IsOneOf list.now item }
    ensures { IsRecency (seen over.new ram.now) shape.now (item ∷ without_number list.now item) }
{
    assert!(rt; over.spare() >= 6);
    to_front(ram, over, shape, item);
}

// The calls read this list, from both ends and item by item.
fn reads(rt: &impl Abort, ram: &Ram, over: &Overlay, shape: &Shape, list: &[u64])
    requires shape { IsShape shape.now }
    requires region { length ram.now ≡ shape_words shape.now }
    requires list { IsRecency (seen over.now ram.now) shape.now list.now }
{
    assert_eq!(rt; newest(ram, over, shape), list.first().copied());
    assert_eq!(rt; last(ram, over, shape), list.last().copied());
    for k in 0..list.len() {
        let next = list.get(k + 1).copied();
        assert_eq!(rt; older(ram, over, shape, list[k]), next);
    }
}

// A list of three items in a region of zero words.
fn three(rt: &impl Abort, ram: &Ram, over: &mut Overlay, shape: &Shape)
    requires shape { IsShape shape.now }
    requires items { shape.now.n_items ≡ 4 }
    requires region { length ram.now ≡ shape_words shape.now }
    requires list { IsRecency (seen over.old ram.now) shape.now [] }
    ensures { IsRecency (seen over.new ram.now) shape.now (3 ∷ 0 ∷ 2 ∷ []) }
{
    reads(rt, ram, over, shape, &[]);
    front(rt, ram, over, shape, 2, &[]);
    reads(rt, ram, over, shape, &[2]);
    front(rt, ram, over, shape, 0, &[2]);
    front(rt, ram, over, shape, 3, &[0, 2]);
    reads(rt, ram, over, shape, &[3, 0, 2]);
}

#[test]
fn a_middle_the_last_and_the_first_item_leave_the_list(rt: HostRuntime) -> Result<(), Fail> {
    let shape = small_shape();
    let ram = Ram::new(rt.alloc(), 489)?;
    let mut over = Overlay::new(rt.alloc(), 40)?;
    three(&rt, &ram, &mut over, &shape);
    leave(&rt, &ram, &mut over, &shape, 0, &[3, 0, 2]);
    reads(&rt, &ram, &over, &shape, &[3, 2]);
    leave(&rt, &ram, &mut over, &shape, 2, &[3, 2]);
    reads(&rt, &ram, &over, &shape, &[3]);
    front(&rt, &ram, &mut over, &shape, 1, &[3]);
    leave(&rt, &ram, &mut over, &shape, 1, &[1, 3]);
    reads(&rt, &ram, &over, &shape, &[3]);
    leave(&rt, &ram, &mut over, &shape, 3, &[3]);
    reads(&rt, &ram, &over, &shape, &[]);
    Ok(())
}

// Header words 6 and 7, and words 1 and 2 of each of the four items.
#[test]
fn the_words_of_a_list(rt: HostRuntime) -> Result<(), Fail> {
    let shape = small_shape();
    let ram = Ram::new(rt.alloc(), 489)?;
    let mut over = Overlay::new(rt.alloc(), 40)?;
    three(&rt, &ram, &mut over, &shape);
    let words = [
        (6, 48),
        (7, 39),
        (22, 48),
        (23, 39),
        (31, 0),
        (32, 0),
        (40, 21),
        (41, 0),
        (49, 0),
        (50, 21),
    ];
    for (at, word) in words {
        if at < ram.len() {
            assert_eq!(rt; over.load(&ram, at), word, "at {at}");
        }
    }
    Ok(())
}

// Five items of nine words, from word 21 on.
fn shape_of_five() -> Shape
    ensures shape { IsShape result }
    ensures region { shape_words result ≡ 498 }
    ensures items { result.n_items ≡ 5 }
{
    Shape {
        head: 0,
        bitmap: 16,
        chains: 17,
        items: 21,
        stride: 9,
        blocks: 66,
        intent: 98,
        room: 400,
        n_items: 5,
        n_blocks: 4,
        n_chains: 4,
        key_words: 1,
        block_words: 8,
    }
}

// A list of five items in a region of zero words.
fn five(rt: &impl Abort, ram: &Ram, over: &mut Overlay, shape: &Shape)
    requires shape { IsShape shape.now }
    requires items { shape.now.n_items ≡ 5 }
    requires region { length ram.now ≡ shape_words shape.now }
    requires list { IsRecency (seen over.old ram.now) shape.now [] }
    ensures { IsRecency (seen over.new ram.now) shape.now (4 ∷ 3 ∷ 2 ∷ 1 ∷ 0 ∷ []) }
{
    front(rt, ram, over, shape, 0, &[]);
    front(rt, ram, over, shape, 1, &[0]);
    front(rt, ram, over, shape, 2, &[1, 0]);
    front(rt, ram, over, shape, 3, &[2, 1, 0]);
    front(rt, ram, over, shape, 4, &[3, 2, 1, 0]);
}

// One of the five items leaves the list, which is this one then.
fn one_leaves(rt: &impl Abort, alloc: Global, item: u64, rest: &[u64]) -> Result<(), Memory>
    requires item { item < 5 }
    requires listed { IsOneOf (4 ∷ 3 ∷ 2 ∷ 1 ∷ 0 ∷ []) item }
    requires rest { rest.now ≡ without_number (4 ∷ 3 ∷ 2 ∷ 1 ∷ 0 ∷ []) item }
{
    let shape = shape_of_five();
    let ram = Ram::new(alloc, 498)?;
    let mut over = Overlay::new(alloc, 40)?;
    five(rt, &ram, &mut over, &shape);
    reads(rt, &ram, &over, &shape, &[4, 3, 2, 1, 0]);
    leave(rt, &ram, &mut over, &shape, item, &[4, 3, 2, 1, 0]);
    reads(rt, &ram, &over, &shape, rest);
    Ok(())
}

// One of the five items comes to the front of the list, which is this one then.
fn one_comes(rt: &impl Abort, alloc: Global, item: u64, list: &[u64]) -> Result<(), Memory>
    requires item { item < 5 }
    requires listed { IsOneOf (4 ∷ 3 ∷ 2 ∷ 1 ∷ 0 ∷ []) item }
    requires list { list.now ≡ item ∷ without_number (4 ∷ 3 ∷ 2 ∷ 1 ∷ 0 ∷ []) item }
{
    let shape = shape_of_five();
    let ram = Ram::new(alloc, 498)?;
    let mut over = Overlay::new(alloc, 40)?;
    five(rt, &ram, &mut over, &shape);
    again(rt, &ram, &mut over, &shape, item, &[4, 3, 2, 1, 0]);
    reads(rt, &ram, &over, &shape, list);
    Ok(())
}

#[test]
fn each_of_five_items_leaves_the_list(rt: HostRuntime) -> Result<(), Fail> {
    one_leaves(&rt, rt.alloc(), 4, &[3, 2, 1, 0])?;
    one_leaves(&rt, rt.alloc(), 3, &[4, 2, 1, 0])?;
    one_leaves(&rt, rt.alloc(), 2, &[4, 3, 1, 0])?;
    one_leaves(&rt, rt.alloc(), 1, &[4, 3, 2, 0])?;
    one_leaves(&rt, rt.alloc(), 0, &[4, 3, 2, 1])?;
    Ok(())
}

#[test]
fn each_of_five_items_comes_to_the_front(rt: HostRuntime) -> Result<(), Fail> {
    one_comes(&rt, rt.alloc(), 4, &[4, 3, 2, 1, 0])?;
    one_comes(&rt, rt.alloc(), 3, &[3, 4, 2, 1, 0])?;
    one_comes(&rt, rt.alloc(), 2, &[2, 4, 3, 1, 0])?;
    one_comes(&rt, rt.alloc(), 1, &[1, 4, 3, 2, 0])?;
    one_comes(&rt, rt.alloc(), 0, &[0, 4, 3, 2, 1])?;
    Ok(())
}
