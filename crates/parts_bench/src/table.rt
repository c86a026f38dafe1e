// A region whose items have keys, each on the chain of its key.
ghost use Rattle.std.specs.Prelude.{◌≡◌, ◌+◌, ◌<◌, ◌≤◌, length, true, false};
ghost use Rattle.uw_words.specs.Parts.{seen};
ghost use Rattle.parts_bench.specs.Tables.{IsIdle, ChainsFirst};

use crate::region::{Sizes, shape_of, write};
use std::alloc::Global;
use std::marker::Model;
use uw_base::Memory;
use uw_chains::{find, link};
use uw_items::put_key;
use uw_words::{Overlay, Ram, Shape};

// The words that are planned for one item.
const PLANNED: u64 = 5;

// The golden ratio in 64 bits, which is odd.
const SPREAD: u64 = 0x9E37_79B9_7F4A_7C15;

/// A region whose first items have keys, each that of its number, and are on chains.
#[derive(Drop)]
pub struct Table {
    ram: Ram,
    plan: Overlay,
    shape: Shape,
    filled: u64,
}

impl Model for Table {
    ghost use Rattle.uw_words.specs.declared.shape.Shape.{Shape};
    ghost use Rattle.parts_bench.specs.Tables.{IsFilled};
    ghost use Rattle.std.specs.Prelude.{List, ℕ};

    ghost Value = { List ℕ × Shape };

    ghost view = { λ t. (t.ram, t.shape) };

    ghost invariant = { λ t. IsFilled t.ram t.plan t.shape t.filled };
}

// The key of a number: eight bytes, and another one for each number.
fn key_of(number: u64) -> [u8; 8] {
    number.wrapping_mul(SPREAD).to_le_bytes()
}

// Plans an item with the key of its number, first on its chain.
fn plan_item(ram: &Ram, plan: &mut Overlay, shape: &Shape, item: u64)
    requires idle { IsIdle ram.now plan.old shape.now }
    requires item { item < shape.now.n_items }
    requires room { 5 ≤ plan.old.room }
    requires chains { ChainsFirst (seen plan.old ram.now) shape.now item }
    ensures chains { ChainsFirst (seen plan.new ram.now) shape.now (item + 1) }
{
    put_key(plan, shape, item, &key_of(item));
    link(ram, plan, shape, item);
}

// Gives an item the key of its number and puts it on its chain. Says whether the redo record had room for that.
fn join(ram: &mut Ram, plan: &mut Overlay, shape: &Shape, item: u64) -> bool
    requires idle { IsIdle ram.old plan.old shape.now }
    requires item { item < shape.now.n_items }
    requires room { 5 ≤ plan.old.room }
    requires chains { ChainsFirst (seen plan.old ram.old) shape.now item }
    ensures idle { IsIdle ram.new plan.new shape.now }
    ensures done { result ≡ true → ChainsFirst (seen plan.new ram.new) shape.now (item + 1) }
    ensures left { result ≡ false → ChainsFirst (seen plan.new ram.new) shape.now item }
{
    plan_item(ram, plan, shape, item);
    write(ram, shape, plan)
}

impl Table {
    /// With no item on a chain yet.
    pub fn new(alloc: Global, items: u64) -> Result<Table, Memory> {
        let sizes = Sizes {
            items,
            chains: items,
            blocks: 1,
            planned: PLANNED,
        };
        let shape = shape_of(&sizes).ok_or(Memory)?;
        Ok(Table {
            ram: Ram::new(alloc, shape.intent + shape.room)?,
            plan: Overlay::new(alloc, PLANNED)?,
            shape,
            filled: 0,
        })
    }

    /// Gives the next item its key. Says whether there was one.
    pub fn add(&mut self) -> bool {
        let item = self.filled;
        if item >= self.shape.n_items || self.plan.spare() < PLANNED {
            return false;
        }
        if !join(&mut self.ram, &mut self.plan, &self.shape, item) {
            return false;
        }
        self.filled = item + 1;
        true
    }

    /// The item that holds the key of a number.
    pub fn find(&self, number: u64) -> Option<u64> {
        find(&self.ram, &self.plan, &self.shape, &key_of(number))
    }
}
