// An entry leaves the list that a region agrees with, or comes in front of it.
ghost use Rattle.std.specs.Prelude.{◌≡◌, ◌≢◌, ◌∷◌, ◌+◌, ◌*◌, ◌^◌, ◌<◌, ◌≤◌, ℕ, List, [], drop, length, false};
ghost use Rattle.uw_model.specs.declared.entries.Entry.{Entry};
ghost use Rattle.uw_model.specs.Entries.{IsCacheConf, IsState, span_of};
ghost use Rattle.uw_model.specs.Calls.{without};
ghost use Rattle.uw_model.specs.Layout.{words_of};
ghost use Rattle.uw_words.specs.Numbers.{IsNoneOf, without_number};
ghost use Rattle.uw_words.specs.Parts.{GrewAt, HasRoom, seen};
ghost use Rattle.uw_words.specs.Shapes.{IsShape, shape_words};
ghost use Rattle.uw_words.specs.Walks.{item_word};
ghost use Rattle.uw_words.specs.Records.{HoldsKey, HoldsSomeKey};
ghost use Rattle.uw_words.specs.Texts.{text_words};
ghost use Rattle.uw_bitmap.specs.Bits.{ChangesRun, is_marked, run_places};
ghost use Rattle.uw_chains.specs.Chains.{item_chain};
ghost use Rattle.uw_items.specs.Items.{HoldsFields, HoldsValue, LieInBlocks};
ghost use Rattle.uw_plan.specs.Agreement.{AgreesAs};
ghost use Rattle.uw_plan.specs.Parts.{HoldsParts, Parts, entry_of};
ghost use Rattle.uw_plan.specs.Plans.{Costs, HasRoomFor, IsInUse, IsPaired, item_run_places};
ghost use Rattle.uw_plan.specs.EntrySteps.{GrewInZones, IsListedIn, IsNewIn, counted_parts, free_zones, freed_parts, list_zones, listed_parts, record_places, taken_parts, unlisted_parts};
ghost use Rattle.uw_plan.specs.Regions.{shape_of};

use crate::region::shape_of;
use uw_bitmap::{mark, unmark};
use uw_chains::{link, unlink};
use uw_items::{Fields, fields_of, give_free, put_fields, put_key, put_value, take_free};
use uw_model::{CacheConf, span_of};
use uw_recency::{push_front, take_out};
use uw_words::{Overlay, Ram, Shape};

// Plans that the blocks of an item are unmarked.
fn release(ram: &Ram, conf: &CacheConf, over: &mut Overlay, shape: &Shape, item: u64)
    requires conf { IsCacheConf conf.now }
    requires shape { IsShape shape.now }
    requires region { length ram.now ≡ shape_words shape.now }
    requires item { item < shape.now.n_items }
    requires run { item_word (seen over.old ram.now) shape.now item 4 + span_of conf.now (item_word (seen over.old ram.now) shape.now item 5) ≤ shape.now.n_blocks }
    requires room { HasRoom over.old (item_run_places (seen over.old ram.now) shape.now conf.now item) }
    ensures bits { ChangesRun false (is_marked (seen over.old ram.now) shape.now) (is_marked (seen over.new ram.now) shape.now)
        (item_word (seen over.old ram.now) shape.now item 4) (span_of conf.now (item_word (seen over.old ram.now) shape.now item 5)) }
    ensures places { GrewAt (item_run_places (seen over.old ram.now) shape.now conf.now item) over.old over.new }
{
    let fields = fields_of(ram, over, shape, item);
    let n = span_of(conf, fields.length);
    unmark(ram, over, shape, fields.first, n);
}

// Plans that an item leaves the recency list and its chain.
fn leave_lists(ram: &Ram, over: &mut Overlay, shape: &Shape, item: u64)
    requires shape { IsShape shape.now }
    requires region { length ram.now ≡ shape_words shape.now }
    requires item { item < shape.now.n_items }
    requires listed { (parts : Parts) × (HoldsParts (seen over.old ram.now) shape.now parts
        × IsListedIn parts (item_chain (seen over.old ram.now) shape.now item) item) }
    requires room { length over.old.writes + 3 ≤ over.old.room }
    ensures parts { (parts : Parts) → HoldsParts (seen over.old ram.now) shape.now parts
        → IsListedIn parts (item_chain (seen over.old ram.now) shape.now item) item
        → HoldsParts (seen over.new ram.now) shape.now (unlisted_parts parts (item_chain (seen over.old ram.now) shape.now item) item) }
    ensures grew { GrewInZones shape.now list_zones 3 over.old over.new }
{
    take_out(ram, over, shape, item);
    unlink(ram, over, shape, item);
}

// Plans that an item which is on no list is free, and that one less is in use.
fn set_free(ram: &Ram, over: &mut Overlay, shape: &Shape, item: u64)
    requires shape { IsShape shape.now }
    requires region { length ram.now ≡ shape_words shape.now }
    requires item { item < shape.now.n_items }
    requires some { 0 < seen over.old ram.now 9 }
    requires room { length over.old.writes + 3 ≤ over.old.room }
    ensures parts { (parts : Parts) → HoldsParts (seen over.old ram.now) shape.now parts → IsNoneOf parts.items item
        → IsNoneOf parts.free item → HoldsParts (seen over.new ram.now) shape.now (freed_parts parts item) }
    ensures grew { GrewInZones shape.now free_zones 3 over.old over.new }
{
    give_free(ram, over, shape, item);
    let count = over.load(ram, shape.head + 9);
    over.put(shape.head + 9, count - 1);
}

/// Plans that the entry of an item leaves the list. At most sixteen words are planned for it, beside those of the bitmap
/// that its blocks touch. Takes no memory.
pub fn drop_entry(ram: &Ram, conf: &CacheConf, over: &mut Overlay, item: u64)
    requires conf { IsCacheConf conf.now }
    requires region { length ram.now ≡ words_of conf.now }
    requires used { IsInUse (seen over.old ram.now) (shape_of conf.now) conf.now item }
    requires room { HasRoomFor over.old 16 (item_run_places (seen over.old ram.now) (shape_of conf.now) conf.now item) }
    ensures list { (items : List ℕ) (list : List Entry) (e : Entry)
        → AgreesAs (seen over.old ram.now) (shape_of conf.now) conf.now items list → IsPaired items list item e
        → AgreesAs (seen over.new ram.now) (shape_of conf.now) conf.now (without_number items item) (without e.key list) }
    ensures costs { Costs (shape_of conf.now) 16 (item_run_places (seen over.old ram.now) (shape_of conf.now) conf.now item)
        over.old over.new }
{
    let shape = shape_of(conf);
    release(ram, conf, over, &shape, item);
    leave_lists(ram, over, &shape, item);
    set_free(ram, over, &shape, item);
}

// Plans the first free item as free no more.
fn take_item(ram: &Ram, over: &mut Overlay, shape: &Shape) -> u64
    requires shape { IsShape shape.now }
    requires region { length ram.now ≡ shape_words shape.now }
    requires some { (parts : Parts) × (HoldsParts (seen over.old ram.now) shape.now parts × (parts.free ≢ [])) }
    requires room { length over.old.writes + 1 ≤ over.old.room }
    ensures item { (parts : Parts) → HoldsParts (seen over.old ram.now) shape.now parts → parts.free ≡ result ∷ drop 1 parts.free }
    ensures parts { (parts : Parts) → HoldsParts (seen over.old ram.now) shape.now parts
        → HoldsParts (seen over.new ram.now) shape.now (taken_parts parts) }
    ensures grew { GrewInZones shape.now free_zones 1 over.old over.new }
{
    let Some(item) = take_free(ram, over, shape) else {
        unreachable!()
    };
    item
}

// Plans the record of an item: its key, its fields and its value.
fn put_record(
    over: &mut Overlay,
    shape: &Shape,
    item: u64,
    key: &[u8],
    value: &[u8],
    fields: &Fields,
)
    requires shape { IsShape shape.now }
    requires item { item < shape.now.n_items }
    requires key { length key.now ≤ 8 * shape.now.key_words }
    requires value { LieInBlocks shape.now fields.now.first (length value.now) }
    requires room { HasRoom over.old (record_places shape.now item (length key.now) fields.now.first (length value.now)) }
    ensures key { (words : List ℕ) → HoldsKey (seen over.new words) shape.now item key.now }
    ensures fields { (words : List ℕ) → HoldsFields (seen over.new words) shape.now item fields.now }
    ensures value { (words : List ℕ) → HoldsValue (seen over.new words) shape.now fields.now.first value.now }
    ensures grew { GrewAt (record_places shape.now item (length key.now) fields.now.first (length value.now)) over.old over.new }
{
    put_key(over, shape, item, key);
    put_fields(over, shape, item, fields);
    put_value(over, shape, fields.first, value);
}

// Plans that an item comes in front of its chain and of the recency list.
fn join_lists(ram: &Ram, over: &mut Overlay, shape: &Shape, item: u64)
    requires shape { IsShape shape.now }
    requires region { length ram.now ≡ shape_words shape.now }
    requires item { item < shape.now.n_items }
    requires key { HoldsSomeKey (seen over.old ram.now) shape.now item }
    requires unlisted { (parts : Parts) × (HoldsParts (seen over.old ram.now) shape.now parts
        × IsNewIn parts (item_chain (seen over.old ram.now) shape.now item) item) }
    requires room { length over.old.writes + 6 ≤ over.old.room }
    ensures parts { (parts : Parts) → HoldsParts (seen over.old ram.now) shape.now parts
        → IsNewIn parts (item_chain (seen over.old ram.now) shape.now item) item
        → HoldsParts (seen over.new ram.now) shape.now (listed_parts parts (item_chain (seen over.old ram.now) shape.now item) item) }
    ensures grew { GrewInZones shape.now list_zones 6 over.old over.new }
{
    link(ram, over, shape, item);
    push_front(ram, over, shape, item);
}

// Plans that one more item is in use.
fn count_up(ram: &Ram, over: &mut Overlay, shape: &Shape)
    requires shape { IsShape shape.now }
    requires region { length ram.now ≡ shape_words shape.now }
    requires few { seen over.old ram.now 9 < 2 ^ 63 }
    requires room { length over.old.writes + 1 ≤ over.old.room }
    ensures parts { (parts : Parts) → HoldsParts (seen over.old ram.now) shape.now parts
        → HoldsParts (seen over.new ram.now) shape.now (counted_parts parts) }
    ensures grew { GrewInZones shape.now free_zones 1 over.old over.new }
{
    let count = over.load(ram, shape.head + 9);
    over.put(shape.head + 9, count + 1);
}

/// Plans that an entry of this key and value comes in front of the list, its value at the blocks that the fields name. At
/// most thirty-two words are planned for it, beside those of its key and value and those of the bitmap that its blocks
/// touch. Takes no memory.
pub fn add_entry(
    ram: &Ram,
    conf: &CacheConf,
    over: &mut Overlay,
    key: &[u8],
    value: &[u8],
    fields: &Fields,
)
    requires conf { IsCacheConf conf.now }
    requires region { length ram.now ≡ words_of conf.now }
    requires length { fields.now.length ≡ length value.now }
    requires list { (items : List ℕ) × (list : List Entry)
        × (AgreesAs (seen over.old ram.now) (shape_of conf.now) conf.now items list
        × IsState conf.now (entry_of key.now value.now fields.now ∷ list)) }
    requires room { HasRoomFor over.old (32 + text_words (length key.now) + text_words (length value.now))
        (run_places (shape_of conf.now) fields.now.first (span_of conf.now (length value.now))) }
    ensures list { (items : List ℕ) (list : List Entry)
        → AgreesAs (seen over.old ram.now) (shape_of conf.now) conf.now items list
        → (e : Entry) → e ≡ entry_of key.now value.now fields.now
        → IsState conf.now (e ∷ list)
        → (item : ℕ) × AgreesAs (seen over.new ram.now) (shape_of conf.now) conf.now (item ∷ items) (e ∷ list) }
    ensures costs { Costs (shape_of conf.now) (32 + text_words (length key.now) + text_words (length value.now))
        (run_places (shape_of conf.now) fields.now.first (span_of conf.now (length value.now))) over.old over.new }
{
    let shape = shape_of(conf);
    let n = span_of(conf, fields.length);
    mark(ram, over, &shape, fields.first, n);
    let item = take_item(ram, over, &shape);
    put_record(over, &shape, item, key, value, fields);
    join_lists(ram, over, &shape, item);
    count_up(ram, over, &shape);
}
