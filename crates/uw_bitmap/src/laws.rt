//! Laws of the bitmap. Each is the contract of a function that does nothing.
ghost use Rattle.std.specs.Prelude.{◌≡◌, ◌<◌, ◌≤◌, ◌+◌, ◌*◌, ◌/◌, ℕ, Bool, length};
ghost use Rattle.uw_words.specs.declared.shape.Shape.{Shape};
ghost use Rattle.uw_words.specs.Shapes.{IsShape, bit_words};
ghost use Rattle.uw_words.specs.Numbers.{IsOneOf};
ghost use Rattle.uw_words.specs.Parts.{DependsOn};
ghost use Rattle.uw_bitmap.specs.Bits.{IsLeastFreeRun, is_marked, run_places, IsBitmapPlace};

/// Which bits of the bitmap's words are marked, those behind the last block too, depends on these words alone.
pub fn marks_depend_on_the_bitmap()
    ensures { (shape : Shape) (marked : ℕ → Bool) → IsShape shape
        → DependsOn (λ reader. (block : ℕ) → block < 64 * bit_words shape.n_blocks
        → is_marked reader shape block ≡ marked block) (IsBitmapPlace shape) }
{}

/// The places that are written for a run are words of the bitmap, one for each 64 blocks and one more at most.
pub fn run_places_are_of_the_bitmap()
    ensures { (shape : Shape) (first n at : ℕ) → IsShape shape → first + n ≤ shape.n_blocks
        → IsOneOf (run_places shape first n) at → IsBitmapPlace shape at }
{}

/// A run is in one word for each 64 blocks, and in one more at most.
pub fn run_places_are_few()
    ensures { (shape : Shape) (first n : ℕ) → length (run_places shape first n) ≤ (n + 126) / 64 }
{}

/// Two searches of the same marks give the same run.
pub fn least_run_is_one()
    ensures { (marked : ℕ → Bool) (blocks n first second : ℕ) → IsLeastFreeRun marked blocks first n → IsLeastFreeRun marked blocks second n
        → first ≡ second }
{}
