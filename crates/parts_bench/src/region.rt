// The layout of a region, and what is planned for it as one write.
ghost use Rattle.std.specs.Prelude.{◌≡◌, ◌<◌, ◌≤◌, ℕ, [], length, true, false, IfSome};
ghost use Rattle.uw_words.specs.Plans.{region};
ghost use Rattle.uw_words.specs.Slots.{place};
ghost use Rattle.uw_words.specs.Shapes.{IsShape, shape_words};
ghost use Rattle.uw_words.specs.Parts.{seen};
ghost use Rattle.uw_intent.specs.RedoRecord.{FitsRecord};
ghost use Rattle.parts_bench.specs.Tables.{redo_frame};

use uw_intent::{Frame, commit};
use uw_outside::Immortal;
use uw_words::{ITEM_HEAD, Overlay, Ram, Shape};

/// How many items, chains and blocks a region has, and how many words are planned for it at a time.
#[derive(Clone, Copy)]
pub struct Sizes {
    pub items: u64,
    pub chains: u64,
    pub blocks: u64,
    pub planned: u64,
}

const MOST: u64 = 1 << 32;

/// The layout of a region whose keys have eight bytes and whose blocks have one word, none where a size is too large.
pub fn shape_of(sizes: &Sizes) -> Option<Shape>
    ensures shape { IfSome result IsShape }
    ensures key { IfSome result (λ shape. shape.key_words ≡ 1) }
    ensures block { IfSome result (λ shape. shape.block_words ≡ 1) }
{
    if sizes.items > MOST || sizes.chains > MOST || sizes.blocks > MOST || sizes.planned > MOST {
        return None;
    }
    if sizes.chains == 0 {
        return None;
    }
    let chains = 16 + sizes.blocks.div_ceil(64);
    let items = chains + sizes.chains;
    let blocks = items + sizes.items * (ITEM_HEAD + 1);
    Some(Shape {
        head: 0,
        bitmap: 16,
        chains,
        items,
        stride: ITEM_HEAD + 1,
        blocks,
        intent: blocks + sizes.blocks,
        room: 3 * sizes.planned,
        n_items: sizes.items,
        n_blocks: sizes.blocks,
        n_chains: sizes.chains,
        key_words: 1,
        block_words: 1,
    })
}

// Where the redo record stands.
fn redo_frame(shape: &Shape) -> Frame
    ensures { result ≡ redo_frame shape.now }
{
    Frame {
        gate: 10,
        used: 11,
        start: shape.intent,
        room: shape.room,
    }
}

// Whether the planned places are between the header and the record.
fn is_between(shape: &Shape, plan: &Overlay) -> bool
    ensures { result ≡ true → (k : ℕ) → k < length plan.now.writes
        → (16 ≤ place plan.now.writes k) × (place plan.now.writes k < shape.now.intent) }
{
    for k in 0..plan.count() {
        let (at, _) = plan.nth(k);
        if at < 16 || at >= shape.intent {
            return false;
        }
    }
    true
}

// Whether the record has room for what is planned, all of it between the header and the record.
fn is_fit(shape: &Shape, plan: &Overlay) -> bool
    requires { IsShape shape.now }
    ensures { result ≡ true → FitsRecord (redo_frame shape.now) (shape_words shape.now) plan.now.writes }
{
    plan.count() <= shape.room / 3 && is_between(shape, plan)
}

// Writes what is planned.
fn store(ram: &mut Ram, shape: &Shape, plan: &Overlay)
    requires shape { IsShape shape.now }
    requires len { length ram.old ≡ shape_words shape.now }
    requires gate { region ram.old 10 ≡ 0 }
    requires fit { FitsRecord (redo_frame shape.now) (shape_words shape.now) plan.now.writes }
    ensures len { length ram.new ≡ length ram.old }
    ensures gate { region ram.new 10 ≡ 0 }
    ensures written { (at : ℕ) → 16 ≤ at → at < shape.now.intent → region ram.new at ≡ seen plan.now ram.old at }
{
    let _count = plan.count();
    let _ = commit(ram, &redo_frame(shape), plan, &mut Immortal::new());
}

/// Writes what is planned where the redo record has room for it and it is between the header and the record, and plans
/// nothing any more. Says whether it was written.
pub fn write(ram: &mut Ram, shape: &Shape, plan: &mut Overlay) -> bool
    requires shape { IsShape shape.now }
    requires len { length ram.old ≡ shape_words shape.now }
    requires gate { region ram.old 10 ≡ 0 }
    ensures len { length ram.new ≡ length ram.old }
    ensures gate { region ram.new 10 ≡ 0 }
    ensures plan { plan.new ≡ record plan.old { writes = [] } }
    ensures written { result ≡ true → (at : ℕ) → 16 ≤ at → at < shape.now.intent
        → seen plan.new ram.new at ≡ seen plan.old ram.old at }
    ensures left { result ≡ false → ram.new ≡ ram.old }
{
    if !is_fit(shape, plan) {
        plan.clear();
        return false;
    }
    store(ram, shape, plan);
    plan.clear();
    true
}
