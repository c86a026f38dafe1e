// Runs that are marked and unmarked.
ghost use Rattle.std.specs.Prelude.{◌≡◌, ◌+◌, ◌<◌, ◌≤◌, ℕ, length, true, false};
ghost use Rattle.uw_words.specs.Shapes.{IsShape, shape_words};
ghost use Rattle.uw_words.specs.Parts.{seen, GrewAt, HasRoom};
ghost use Rattle.uw_bitmap.specs.Bits.{ChangesRun, is_marked, run_places};

use crate::bits::{BITS, with_bits};
use uw_words::{Overlay, Ram, Shape};

/// Plans the words by which so many blocks from a first one on are marked. Takes no memory.
pub fn mark(ram: &Ram, over: &mut Overlay, shape: &Shape, first: u64, n: u64)
    requires shape { IsShape shape.now }
    requires len { length ram.now ≡ shape_words shape.now }
    requires run { first + n ≤ shape.now.n_blocks }
    requires room { HasRoom over.old (run_places shape.now first n) }
    ensures bits { ChangesRun true (is_marked (seen over.old ram.now) shape.now) (is_marked (seen over.new ram.now) shape.now) first n }
    ensures places { GrewAt (run_places shape.now first n) over.old over.new }
{
    change(ram, over, shape, first, n, true);
}

/// Plans the words by which so many blocks from a first one on are unmarked. Takes no memory.
pub fn unmark(ram: &Ram, over: &mut Overlay, shape: &Shape, first: u64, n: u64)
    requires shape { IsShape shape.now }
    requires len { length ram.now ≡ shape_words shape.now }
    requires run { first + n ≤ shape.now.n_blocks }
    requires room { HasRoom over.old (run_places shape.now first n) }
    ensures bits { ChangesRun false (is_marked (seen over.old ram.now) shape.now) (is_marked (seen over.new ram.now) shape.now) first n }
    ensures places { GrewAt (run_places shape.now first n) over.old over.new }
{
    change(ram, over, shape, first, n, false);
}

// Plans the words by which a run has this mark.
fn change(ram: &Ram, over: &mut Overlay, shape: &Shape, first: u64, n: u64, value: bool)
    requires shape { IsShape shape.now }
    requires len { length ram.now ≡ shape_words shape.now }
    requires run { first + n ≤ shape.now.n_blocks }
    requires room { HasRoom over.old (run_places shape.now first n) }
    ensures bits { ChangesRun value (is_marked (seen over.old ram.now) shape.now) (is_marked (seen over.new ram.now) shape.now) first n }
    ensures places { GrewAt (run_places shape.now first n) over.old over.new }
{
    if n == 0 {
        return;
    }
    let end = first + n;
    let words = (end - 1) / BITS + 1;
    for index in first / BITS..words {
        let base = BITS * index;
        let from = first.max(base) - base;
        let to = end.min(base + BITS) - base;
        let word = over.load(ram, shape.bitmap + index);
        over.put(shape.bitmap + index, with_bits(word, from, to, value));
    }
}
