// A region without an entry.
ghost use Rattle.std.specs.Prelude.{◌≡◌, ◌<◌, ℕ, [], length, slice_set, IfOk};
ghost use Rattle.uw_model.specs.Entries.{IsCacheConf};
ghost use Rattle.uw_words.specs.Plans.{region};
ghost use Rattle.uw_words.specs.Shapes.{IsShape, shape_words};
ghost use Rattle.uw_plan.specs.Agreement.{Agrees};
ghost use Rattle.uw_plan.specs.BlankSteps.{HasFreeItems, HasHead, link_to};

use crate::region::shape_of;
use std::alloc::Global;
use uw_base::Memory;
use uw_model::{CacheConf, words_of};
use uw_outside::Immortal;
use uw_words::{Ram, Shape};

// Stores a word, which no death keeps from being written.
fn put(ram: &mut Ram, at: u64, word: u64)
    requires { at < length ram.old }
    ensures { ram.new ≡ slice_set ram.old at word }
{
    let _ = ram.store(at, word, &mut Immortal::new());
}

// Puts the first words of the header into words that are all 0.
fn put_head(ram: &mut Ram, shape: &Shape)
    requires shape { IsShape shape.now }
    requires some { 0 < shape.now.n_items }
    requires len { length ram.old ≡ shape_words shape.now }
    requires zeros { (at : ℕ) → region ram.old at ≡ 0 }
    ensures { HasHead shape.now ram.new 9 }
{
    let head = [
        1,
        shape.n_items,
        shape.n_blocks,
        shape.block_words,
        shape.key_words,
        shape.n_chains,
        0,
        0,
        shape.link_of(0),
    ];
    for at in 0..9 {
        put(ram, at, head[at as usize]);
    }
}

// The link of an item, 0 behind the last one.
fn link_to(shape: &Shape, item: u64) -> u64
    requires shape { IsShape shape.now }
    ensures { result ≡ link_to shape.now item }
{
    if item < shape.n_items {
        shape.link_of(item)
    } else {
        0
    }
}

/// The words of a region without an entry.
pub fn blank_region(alloc: Global, conf: &CacheConf) -> Result<Ram, Memory>
    requires { IsCacheConf conf.now }
    ensures { IfOk result (λ ram. Agrees conf.now ram []) }
{
    let shape = shape_of(conf);
    let mut ram = Ram::new(alloc, words_of(conf))?;
    put_head(&mut ram, &shape);
    for item in 0..shape.n_items {
        let next = link_to(&shape, item + 1);
        put(&mut ram, shape.link_of(item) + 2, next);
    }
    Ok(ram)
}
