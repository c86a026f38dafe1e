// The fields, the key and the value of an item.
ghost use Rattle.std.specs.Prelude.{◌≡◌, ◌<◌, ◌≤◌, ◌+◌, ◌*◌, ℕ, List, length, IfOk};
ghost use Rattle.uw_words.specs.Plans.{region};
ghost use Rattle.uw_words.specs.Shapes.{IsShape, shape_words};
ghost use Rattle.uw_words.specs.Parts.{seen, HasRoom, GrewAt};
ghost use Rattle.uw_words.specs.Walks.{item_word};
ghost use Rattle.uw_words.specs.Records.{HoldsKey};
ghost use Rattle.uw_items.specs.Items.{block_place, LieInBlocks, held_key, key_places, HoldsValue, held_value, value_places, HoldsFields, field_places};

use std::alloc::Global;
use uw_base::{Bytes, Memory, djb33x};
use uw_words::{ITEM_HEAD, Overlay, Ram, Shape, put_text, text_at};

/// What an item says of its entry beside the key.
#[derive(Clone, Copy, Debug, PartialEq, Eq)]
pub struct Fields {
    /// The moment at which the entry dies.
    pub dies: u64,
    /// The first block of its value.
    pub first: u64,
    /// The length of its value in bytes.
    pub length: u64,
}

// The place of a block.
fn block_place(shape: &Shape, block: u64) -> u64
    requires shape { IsShape shape.now }
    requires block { block * shape.now.block_words ≤ shape.now.n_blocks * shape.now.block_words }
    ensures { result ≡ block_place shape.now block }
{
    shape.blocks + block * shape.block_words
}

/// Plans the key of an item: its bytes, eight a word, with 0 behind the last, its length in bytes and its hash.
pub fn put_key(over: &mut Overlay, shape: &Shape, item: u64, key: &[u8])
    requires shape { IsShape shape.now }
    requires item { item < shape.now.n_items }
    requires key { length key.now ≤ 8 * shape.now.key_words }
    requires room { HasRoom over.old (key_places shape.now item (length key.now)) }
    ensures key { (words : List ℕ) → HoldsKey (seen over.new words) shape.now item key.now }
    ensures grew { GrewAt (key_places shape.now item (length key.now)) over.old over.new }
{
    let link = shape.link_of(item);
    over.put(link + 6, key.len() as u64);
    over.put(link + 7, djb33x(key));
    put_text(over, link + ITEM_HEAD, key);
}

/// Plans a value into the blocks from one on: eight bytes a word, with 0 behind the last. Words behind its last one stay.
pub fn put_value(over: &mut Overlay, shape: &Shape, first: u64, value: &[u8])
    requires shape { IsShape shape.now }
    requires within { LieInBlocks shape.now first (length value.now) }
    requires room { HasRoom over.old (value_places shape.now first (length value.now)) }
    ensures value { (words : List ℕ) → HoldsValue (seen over.new words) shape.now first value.now }
    ensures grew { GrewAt (value_places shape.now first (length value.now)) over.old over.new }
{
    put_text(over, block_place(shape, first), value);
}

/// Plans the fields of an item.
pub fn put_fields(over: &mut Overlay, shape: &Shape, item: u64, fields: &Fields)
    requires shape { IsShape shape.now }
    requires item { item < shape.now.n_items }
    requires room { HasRoom over.old (field_places shape.now item) }
    ensures fields { (words : List ℕ) → HoldsFields (seen over.new words) shape.now item fields.now }
    ensures grew { GrewAt (field_places shape.now item) over.old over.new }
{
    let link = shape.link_of(item);
    over.put(link + 3, fields.dies);
    over.put(link + 4, fields.first);
    over.put(link + 5, fields.length);
}

/// The fields of an item.
pub fn fields_of(ram: &Ram, over: &Overlay, shape: &Shape, item: u64) -> Fields
    requires shape { IsShape shape.now }
    requires region { length ram.now ≡ shape_words shape.now }
    requires item { item < shape.now.n_items }
    ensures { HoldsFields (seen over.now ram.now) shape.now item result }
{
    let link = shape.link_of(item);
    Fields {
        dies: over.load(ram, link + 3),
        first: over.load(ram, link + 4),
        length: over.load(ram, link + 5),
    }
}

/// A copy of the key that an item of the region holds, with nothing planned.
pub fn key_of(alloc: Global, ram: &Ram, shape: &Shape, item: u64) -> Result<Bytes, Memory>
    requires shape { IsShape shape.now }
    requires region { length ram.now ≡ shape_words shape.now }
    requires item { item < shape.now.n_items }
    requires key { item_word (region ram.now) shape.now item 6 ≤ 8 * shape.now.key_words }
    ensures { IfOk result (λ key. key ≡ held_key (region ram.now) shape.now item) }
{
    let link = shape.link_of(item);
    text_at(alloc, ram, link + ITEM_HEAD, ram.load(link + 6))
}

/// A copy of the value that an item of the region holds, with nothing planned.
pub fn value_of(alloc: Global, ram: &Ram, shape: &Shape, item: u64) -> Result<Bytes, Memory>
    requires shape { IsShape shape.now }
    requires region { length ram.now ≡ shape_words shape.now }
    requires item { item < shape.now.n_items }
    requires value { (let reader = region ram.now in
        LieInBlocks shape.now (item_word reader shape.now item 4) (item_word reader shape.now item 5)) }
    ensures { IfOk result (λ value. value ≡ held_value (region ram.now) shape.now item) }
{
    let link = shape.link_of(item);
    let first = ram.load(link + 4);
    text_at(alloc, ram, block_place(shape, first), ram.load(link + 5))
}
