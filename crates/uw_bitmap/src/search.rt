// The least free run.
ghost use Rattle.std.specs.Prelude.{◌≡◌, ◌<◌, ◌≤◌, ◌+◌, ◌%◌, ℕ, length, None, true, IfSome};
ghost use Rattle.uw_words.specs.Shapes.{IsShape, shape_words};
ghost use Rattle.uw_words.specs.Parts.{seen};
ghost use Rattle.uw_bitmap.specs.Bits.{IsFreeRun, IsLeastFreeRun, is_marked};

use crate::bits::{BITS, next_one, next_zero};
use uw_words::{Overlay, Ram, Shape};

// The first block, from the first one of a word on, whose word is not full: where all are, the one behind the last word.
fn behind_full(ram: &Ram, over: &Overlay, shape: &Shape, from: u64) -> u64
    requires shape { IsShape shape.now }
    requires len { length ram.now ≡ shape_words shape.now }
    requires whole { from % 64 ≡ 0 }
    requires within { from < shape.now.n_blocks + 64 }
    ensures from { from ≤ result }
    ensures within { result < shape.now.n_blocks + 64 }
    ensures full { (block : ℕ) → from ≤ block → block < result → is_marked (seen over.now ram.now) shape.now block ≡ true }
{
    for at in shape.bitmap + from / BITS..shape.chains {
        if over.load(ram, at) != u64::MAX {
            return BITS * (at - shape.bitmap);
        }
    }
    BITS * (shape.chains - shape.bitmap)
}

/// The least block from which so many blocks are free, as they are read through the overlay. `None` where there is none.
/// Full words are passed over by one comparison each. Takes no memory.
pub fn first_run(ram: &Ram, over: &Overlay, shape: &Shape, n: u64) -> Option<u64>
    requires shape { IsShape shape.now }
    requires len { length ram.now ≡ shape_words shape.now }
    ensures some { IfSome result (λ first. IsLeastFreeRun (is_marked (seen over.now ram.now) shape.now) shape.now.n_blocks first n) }
    ensures none { result ≡ None
        → (first : ℕ) → IsFreeRun (is_marked (seen over.now ram.now) shape.now) shape.now.n_blocks first n → ⊥ }
{
    if n == 0 {
        return Some(0);
    }
    let mut start = 0;
    let mut at = 0;
    while at < shape.n_blocks {
        let base = at - at % BITS;
        let word = over.load(ram, shape.bitmap + at / BITS);
        if word == u64::MAX {
            at = behind_full(ram, over, shape, base + BITS);
            start = at;
            continue;
        }
        let marked = next_one(word, at % BITS);
        at = base + marked;
        if n <= at - start {
            if shape.n_blocks < start + n {
                return None;
            }
            return Some(start);
        }
        if marked < BITS {
            at = base + next_zero(word, marked);
            start = at;
        }
    }
    None
}
