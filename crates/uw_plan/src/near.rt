// The free run round blocks that were just freed.
ghost use Rattle.std.specs.Prelude.{◌≡◌, ◌+◌, ◌-◌, ◌<◌, ◌≤◌, ℕ, length, None, IfSome, true, false, if◌then◌else◌};
ghost use Rattle.uw_words.specs.Parts.{seen};
ghost use Rattle.uw_words.specs.Shapes.{IsShape, shape_words};
ghost use Rattle.uw_bitmap.specs.Bits.{IsFreeRun, IsLeastFreeRun, is_in_run, is_marked};

use uw_words::{Overlay, Ram, Shape};

// How many blocks have their bits in one word.
const BITS: u64 = 64;

// Whether a block is marked, as it is seen through the overlay.
fn is_marked(ram: &Ram, over: &Overlay, shape: &Shape, block: u64) -> bool
    requires shape { IsShape shape.now }
    requires len { length ram.now ≡ shape_words shape.now }
    requires within { block < shape.now.n_blocks }
    ensures { result ≡ is_marked (seen over.now ram.now) shape.now block }
{
    over.load(ram, shape.bitmap + block / BITS) >> (block % BITS) & 1 == 1
}

// The least block from which all blocks up to this one are free.
fn free_back(ram: &Ram, over: &Overlay, shape: &Shape, first: u64) -> u64
    requires shape { IsShape shape.now }
    requires len { length ram.now ≡ shape_words shape.now }
    requires within { first ≤ shape.now.n_blocks }
    ensures before { result ≤ first }
    ensures free { (block : ℕ) → result ≤ block → block < first
        → is_marked (seen over.now ram.now) shape.now block ≡ false }
    ensures taken { 0 < result → is_marked (seen over.now ram.now) shape.now (result - 1) ≡ true }
{
    let mut start = first;
    while start > 0 {
        if is_marked(ram, over, shape, start - 1) {
            return start;
        }
        start -= 1;
    }
    0
}

/// The least block from which n blocks are free, where none were before these m blocks were freed. None where there is
/// none. Looks at no more than n blocks before these and n behind them. Takes no memory.
pub fn run_near(ram: &Ram, over: &Overlay, shape: &Shape, first: u64, m: u64, n: u64) -> Option<u64>
    requires shape { IsShape shape.now }
    requires len { length ram.now ≡ shape_words shape.now }
    requires n { 1 ≤ n }
    requires some { 1 ≤ m }
    requires within { first + m ≤ shape.now.n_blocks }
    requires freed { (block : ℕ) → first ≤ block → block < first + m
        → is_marked (seen over.now ram.now) shape.now block ≡ false }
    requires none { (start : ℕ)
        → IsFreeRun
        (λ block. if is_in_run first m block then true else is_marked (seen over.now ram.now) shape.now block)
        shape.now.n_blocks start n → ⊥ }
    ensures some { IfSome result (λ start.
        IsLeastFreeRun (is_marked (seen over.now ram.now) shape.now) shape.now.n_blocks start n) }
    ensures none { result ≡ None
        → (start : ℕ) → IsFreeRun (is_marked (seen over.now ram.now) shape.now) shape.now.n_blocks start n → ⊥ }
{
    let start = free_back(ram, over, shape, first);
    let mut end = first + m;
    while end - start < n {
        if end == shape.n_blocks || is_marked(ram, over, shape, end) {
            return None;
        }
        end += 1;
    }
    Some(start)
}
