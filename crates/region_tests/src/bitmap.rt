// Runs of blocks in small bitmaps.
ghost use Rattle.std.specs.Prelude.{◌≡◌, ◌<◌, ◌^◌, length};
ghost use Rattle.uw_words.specs.Shapes.{IsShape, shape_words};

use std::alloc::Global;
use std::test::Fail;
use uw_base::Memory;
use uw_bitmap::{first_run, laws, mark, unmark};
use uw_words::{Overlay, Ram, Shape};

// A region of so many blocks of one word, one chain and one item.
fn shape_of(blocks: u64) -> Shape
    requires { blocks < 2 ^ 32 }
    ensures shape { IsShape result }
    ensures blocks { result.n_blocks ≡ blocks }
{
    let chains = 16 + blocks.div_ceil(64);
    Shape {
        head: 0,
        bitmap: 16,
        chains,
        items: chains + 1,
        stride: 9,
        blocks: chains + 10,
        intent: chains + 10 + blocks,
        room: 64,
        n_items: 1,
        n_blocks: blocks,
        n_chains: 1,
        key_words: 1,
        block_words: 1,
    }
}

// Marks or unmarks a run of at most 128 blocks, where it exists.
fn change(ram: &Ram, over: &mut Overlay, shape: &Shape, run: (u64, u64), value: bool)
    requires shape { IsShape shape.now }
    requires len { length ram.now ≡ shape_words shape.now }
{
    let (first, n) = run;
    if n > 128 || n > shape.n_blocks || first > shape.n_blocks - n || over.spare() < 3 {
        return;
    }
    uw_words::laws::spare_words_are_room();
    laws::run_places_are_few();
    if value {
        mark(ram, over, shape, first, n);
    } else {
        unmark(ram, over, shape, first, n);
    }
}

// The least free run of so many blocks once a run was marked and another one unmarked.
fn answer(
    alloc: Global,
    blocks: u64,
    marked: (u64, u64),
    unmarked: (u64, u64),
    n: u64,
) -> Result<Option<u64>, Memory>
    requires { blocks < 2 ^ 32 }
{
    let shape = shape_of(blocks);
    let ram = Ram::new(alloc, shape.intent + shape.room)?;
    let mut over = Overlay::new(alloc, 8)?;
    change(&ram, &mut over, &shape, marked, true);
    change(&ram, &mut over, &shape, unmarked, false);
    Ok(first_run(&ram, &over, &shape, n))
}

// The blocks of a bitmap, the run that is marked, the run that is unmarked again, the blocks that are wanted, and where.
const ROWS: [(u64, (u64, u64), (u64, u64), u64, Option<u64>); 32] = [
    (1, (0, 0), (0, 0), 1, Some(0)),
    (1, (0, 1), (0, 0), 1, None),
    (1, (0, 0), (0, 0), 4, None),
    (63, (0, 59), (0, 0), 4, Some(59)),
    (63, (0, 60), (0, 0), 4, None),
    (63, (0, 0), (0, 0), 63, Some(0)),
    (63, (0, 0), (0, 0), 64, None),
    (64, (0, 60), (0, 0), 4, Some(60)),
    (64, (0, 61), (0, 0), 4, None),
    (64, (0, 0), (0, 0), 64, Some(0)),
    (64, (63, 1), (0, 0), 64, None),
    (64, (0, 0), (0, 0), 65, None),
    (65, (0, 61), (0, 0), 4, Some(61)),
    (65, (0, 62), (0, 0), 4, None),
    (65, (0, 1), (0, 0), 64, Some(1)),
    (65, (0, 0), (0, 0), 65, Some(0)),
    (65, (64, 1), (0, 0), 65, None),
    (70, (0, 62), (0, 0), 4, Some(62)),
    (70, (0, 66), (0, 0), 4, Some(66)),
    (70, (0, 67), (0, 0), 4, None),
    (70, (0, 6), (0, 0), 64, Some(6)),
    (70, (0, 7), (0, 0), 64, None),
    (70, (0, 70), (60, 8), 4, Some(60)),
    (70, (0, 70), (62, 1), 1, Some(62)),
    (128, (0, 128), (63, 2), 1, Some(63)),
    (128, (0, 128), (62, 4), 4, Some(62)),
    (128, (0, 128), (124, 4), 4, Some(124)),
    (128, (0, 128), (64, 64), 64, Some(64)),
    (128, (0, 63), (0, 0), 65, Some(63)),
    (128, (0, 64), (0, 0), 65, None),
    (128, (3, 122), (0, 0), 4, None),
    (128, (3, 122), (0, 0), 3, Some(0)),
];

#[test]
fn the_least_free_run_is_found(rt: HostRuntime) -> Result<(), Fail> {
    for (blocks, marked, unmarked, n, wanted) in ROWS {
        let blocks = blocks.min(128);
        assert_eq!(rt; answer(rt.alloc(), blocks, marked, unmarked, n)?, wanted);
    }
    Ok(())
}
