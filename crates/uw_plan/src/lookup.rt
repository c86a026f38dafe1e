// An item is found by its key, and an entry is used.
ghost use Rattle.std.specs.Prelude.{◌≡◌, ◌+◌, ◌≤◌, ◌==◌, ◌∷◌, ℕ, List, [], length, Option, Some, None, IfSome, if◌then◌else◌};
ghost use Rattle.uw_model.specs.declared.entries.Entry.{Entry};
ghost use Rattle.uw_model.specs.Entries.{IsCacheConf};
ghost use Rattle.uw_model.specs.Calls.{alive_at, number_of, without};
ghost use Rattle.uw_model.specs.Layout.{words_of};
ghost use Rattle.uw_words.specs.Numbers.{without_number};
ghost use Rattle.uw_words.specs.Parts.{seen};
ghost use Rattle.uw_plan.specs.Agreement.{AgreesAs};
ghost use Rattle.uw_plan.specs.CallSteps.{HasEntries, IsItemOf};
ghost use Rattle.uw_plan.specs.KeyEntries.{entry_at};
ghost use Rattle.uw_plan.specs.CallPlanSteps.{IsNumberAt};
ghost use Rattle.uw_plan.specs.Plans.{Costs, IsInUse, IsPaired};
ghost use Rattle.uw_plan.specs.Regions.{shape_of};

use crate::region::shape_of;
use uw_chains::find;
use uw_items::fields_of;
use uw_model::{CacheConf, is_alive_until};
use uw_recency::to_front;
use uw_words::{Overlay, Ram};

/// The item that holds the entry of a key, none where no entry has it.
pub fn item_of_key(ram: &Ram, conf: &CacheConf, over: &Overlay, key: &[u8]) -> Option<u64>
    requires conf { IsCacheConf conf.now }
    requires region { length ram.now ≡ words_of conf.now }
    requires some { HasEntries (seen over.now ram.now) conf.now }
    ensures { (items : List ℕ) (list : List Entry)
        → AgreesAs (seen over.now ram.now) (shape_of conf.now) conf.now items list
        → IsItemOf items list (entry_at list key.now) result }
{
    find(ram, over, &shape_of(conf), key)
}

/// The item that holds the alive entry of a key, none where it has none.
pub fn alive_item(
    ram: &Ram,
    conf: &CacheConf,
    over: &Overlay,
    moment: u64,
    key: &[u8],
) -> Option<u64>
    requires conf { IsCacheConf conf.now }
    requires region { length ram.now ≡ words_of conf.now }
    requires some { HasEntries (seen over.now ram.now) conf.now }
    ensures { (items : List ℕ) (list : List Entry)
        → AgreesAs (seen over.now ram.now) (shape_of conf.now) conf.now items list
        → IsItemOf items list (alive_at conf.now list moment key.now) result }
{
    let item = item_of_key(ram, conf, over, key)?;
    let fields = fields_of(ram, over, &shape_of(conf), item);
    if is_alive_until(conf, moment, fields.dies) {
        Some(item)
    } else {
        None
    }
}

/// The number that the value of an item stands for, none where it is not one of eight bytes.
pub fn number_of_item(ram: &Ram, conf: &CacheConf, over: &Overlay, item: u64) -> Option<i64>
    requires conf { IsCacheConf conf.now }
    requires region { length ram.now ≡ words_of conf.now }
    requires used { IsInUse (seen over.now ram.now) (shape_of conf.now) conf.now item }
    ensures { (items : List ℕ) (list : List Entry) (e : Entry)
        → AgreesAs (seen over.now ram.now) (shape_of conf.now) conf.now items list → IsPaired items list item e
        → result ≡ (if length e.value == 8 then Some (number_of e.value) else None) }
{
    let shape = shape_of(conf);
    let fields = fields_of(ram, over, &shape, item);
    if fields.length != 8 {
        return None;
    }
    let word = over.load(ram, shape.blocks + fields.first * shape.block_words);
    Some(word.cast_signed())
}

/// The number of the entry that an item holds, 0 where there is none. None where the value of that entry is none of a
/// number.
pub fn number_found(ram: &Ram, conf: &CacheConf, over: &Overlay, item: Option<u64>) -> Option<i64>
    requires conf { IsCacheConf conf.now }
    requires region { length ram.now ≡ words_of conf.now }
    requires used { IfSome item (λ i. IsInUse (seen over.now ram.now) (shape_of conf.now) conf.now i) }
    ensures { (items : List ℕ) (list : List Entry) (entry : Option Entry)
        → AgreesAs (seen over.now ram.now) (shape_of conf.now) conf.now items list → IsItemOf items list entry item
        → IsNumberAt entry result }
{
    match item {
        None => Some(0),
        Some(item) => number_of_item(ram, conf, over, item),
    }
}

/// Plans that the entry of an item is used: it comes to the front of the list. At most six words are planned for it.
/// Takes no memory.
pub fn use_entry(ram: &Ram, conf: &CacheConf, over: &mut Overlay, item: u64)
    requires conf { IsCacheConf conf.now }
    requires region { length ram.now ≡ words_of conf.now }
    requires used { IsInUse (seen over.old ram.now) (shape_of conf.now) conf.now item }
    requires room { length over.old.writes + 6 ≤ over.old.room }
    ensures list { (items : List ℕ) (list : List Entry) (e : Entry)
        → AgreesAs (seen over.old ram.now) (shape_of conf.now) conf.now items list → IsPaired items list item e
        → AgreesAs (seen over.new ram.now) (shape_of conf.now) conf.now
        (item ∷ without_number items item) (e ∷ without e.key list) }
    ensures costs { Costs (shape_of conf.now) 6 [] over.old over.new }
{
    to_front(ram, over, &shape_of(conf), item);
}
