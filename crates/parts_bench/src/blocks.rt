// A region of which only the blocks are used: their bitmap, and a value in them.
ghost use Rattle.std.specs.Prelude.{◌≡◌, ◌<◌, length, true};
ghost use Rattle.uw_words.specs.Plans.{region};
ghost use Rattle.uw_words.specs.Shapes.{IsShape, shape_words};
ghost use Rattle.uw_words.specs.Walks.{item_word};
ghost use Rattle.uw_items.specs.Items.{LieInBlocks};

use crate::region::{Sizes, shape_of, write};
use std::alloc::Global;
use std::marker::Model;
use uw_base::{Bytes, Memory};
use uw_bitmap::{first_run, mark};
use uw_items::{Fields, put_fields, put_value, value_of};
use uw_words::{Overlay, Ram, Shape};

/// A region with blocks of a word, and one item.
#[derive(Drop)]
pub struct Blocks {
    ram: Ram,
    plan: Overlay,
    shape: Shape,
}

impl Model for Blocks {
    ghost use Rattle.uw_words.specs.declared.shape.Shape.{Shape};
    ghost use Rattle.parts_bench.specs.Tables.{IsIdle};
    ghost use Rattle.std.specs.Prelude.{List, ℕ};

    ghost Value = { List ℕ × Shape };

    ghost view = { λ b. (b.ram, b.shape) };

    ghost invariant = { λ b. IsIdle b.ram b.plan b.shape };
}

// Whether the value of the first item lies in the blocks.
fn lies(ram: &Ram, shape: &Shape) -> bool
    requires shape { IsShape shape.now }
    requires len { length ram.now ≡ shape_words shape.now }
    requires block { shape.now.block_words ≡ 1 }
    requires item { 0 < shape.now.n_items }
    ensures { result ≡ true → LieInBlocks shape.now (item_word (region ram.now) shape.now 0 4) (item_word (region ram.now) shape.now 0 5) }
{
    let link = shape.link_of(0);
    let first = ram.load(link + 4);
    let bytes = ram.load(link + 5);
    first <= shape.n_blocks && bytes.div_ceil(8) <= shape.n_blocks - first
}

impl Blocks {
    /// Zero words, and a plan of so many words at a time.
    pub fn new(alloc: Global, blocks: u64, planned: u64) -> Result<Blocks, Memory> {
        let sizes = Sizes {
            items: 1,
            chains: 1,
            blocks,
            planned,
        };
        let shape = shape_of(&sizes).ok_or(Memory)?;
        Ok(Blocks {
            ram: Ram::new(alloc, shape.intent + shape.room)?,
            plan: Overlay::new(alloc, planned)?,
            shape,
        })
    }

    /// Marks so many blocks from a first one on. Says whether they exist and the plan had room for them.
    pub fn mark(&mut self, first: u64, n: u64) -> bool {
        let blocks = self.shape.n_blocks;
        if n > blocks || first > blocks - n || n / 64 + 2 > self.plan.spare() {
            return false;
        }
        uw_words::laws::spare_words_are_room();
        uw_bitmap::laws::run_places_are_few();
        mark(&self.ram, &mut self.plan, &self.shape, first, n);
        write(&mut self.ram, &self.shape, &mut self.plan)
    }

    /// The least block from which so many are unmarked.
    pub fn first_run(&self, n: u64) -> Option<u64> {
        first_run(&self.ram, &self.plan, &self.shape, n)
    }

    /// Plans a value from the first block on, and nothing any more. Says whether it was planned.
    pub fn plan_value(&mut self, value: &[u8]) -> bool {
        let words = value.len().div_ceil(8) as u64;
        if words > self.shape.n_blocks || words > self.plan.spare() {
            return false;
        }
        uw_words::laws::spare_words_are_room();
        uw_items::laws::value_places_are_few();
        put_value(&mut self.plan, &self.shape, 0, value);
        self.plan.clear();
        true
    }

    /// Writes a value from the first block on as that of the item. Says whether it was written.
    pub fn write_value(&mut self, value: &[u8]) -> bool {
        let words = value.len().div_ceil(8) as u64;
        if words > self.shape.n_blocks || words > self.plan.spare() || self.shape.n_items == 0 {
            return false;
        }
        uw_words::laws::spare_words_are_room();
        uw_items::laws::value_places_are_few();
        put_value(&mut self.plan, &self.shape, 0, value);
        if self.plan.spare() >= 3 {
            let fields = Fields {
                dies: 0,
                first: 0,
                length: value.len() as u64,
            };
            put_fields(&mut self.plan, &self.shape, 0, &fields);
        }
        write(&mut self.ram, &self.shape, &mut self.plan)
    }

    /// A copy of the item's value, none where there is no memory for it.
    pub fn value(&self, alloc: Global) -> Option<Bytes> {
        if self.shape.n_items == 0 || !lies(&self.ram, &self.shape) {
            return None;
        }
        value_of(alloc, &self.ram, &self.shape, 0).ok()
    }
}
