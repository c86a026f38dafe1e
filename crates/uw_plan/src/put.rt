// An entry is written in front of the list, in room that is made for it.
ghost use Rattle.std.specs.Prelude.{◌≡◌, ◌+◌, ℕ, List, length, false};
ghost use Rattle.uw_model.specs.declared.entries.Entry.{Entry};
ghost use Rattle.uw_model.specs.Calls.{is_bad_key, is_too_long, without};
ghost use Rattle.uw_model.specs.Entries.{IsCacheConf};
ghost use Rattle.uw_model.specs.Layout.{words_of};
ghost use Rattle.uw_words.specs.Parts.{seen};
ghost use Rattle.uw_words.specs.Texts.{text_words};
ghost use Rattle.uw_plan.specs.Agreement.{AgreesAs};
ghost use Rattle.uw_plan.specs.CallSteps.{HasEntries, HasSpareFor, IsPut, Leaves};
ghost use Rattle.uw_plan.specs.Regions.{shape_of};

use crate::entries::{add_entry, drop_entry};
use crate::lookup::item_of_key;
use crate::policies::make_room;
use uw_items::Fields;
use uw_model::{CacheConf, span_of};
use uw_words::{Overlay, Ram};

// Plans that the entry of a key leaves the list, where there is one.
fn remove_key(ram: &Ram, conf: &CacheConf, over: &mut Overlay, key: &[u8])
    requires conf { IsCacheConf conf.now }
    requires region { length ram.now ≡ words_of conf.now }
    requires some { HasEntries (seen over.old ram.now) conf.now }
    requires room { (items : List ℕ) (list : List Entry) → AgreesAs (seen over.old ram.now) (shape_of conf.now) conf.now items list
        → HasSpareFor conf.now list 0 over.old }
    ensures { (items : List ℕ) (list : List Entry) → AgreesAs (seen over.old ram.now) (shape_of conf.now) conf.now items list
        → Leaves conf.now ram.now over.old over.new list (without key.now list) }
{
    if let Some(item) = item_of_key(ram, conf, over, key) {
        drop_entry(ram, conf, over, item);
    }
}

/// Plans that an entry of this key and value, which dies at a moment, comes in front of the list in place of any other of
/// its key, in room that is made at a moment. Answers false where no policy makes room; then what is planned is of no use.
/// Takes no memory.
pub fn put_entry(
    ram: &Ram,
    conf: &CacheConf,
    over: &mut Overlay,
    moment: u64,
    key: &[u8],
    value: &[u8],
    dies: u64,
) -> bool
    requires conf { IsCacheConf conf.now }
    requires region { length ram.now ≡ words_of conf.now }
    requires some { HasEntries (seen over.old ram.now) conf.now }
    requires key { is_bad_key conf.now key.now ≡ false }
    requires value { is_too_long conf.now value.now ≡ false }
    requires room { (items : List ℕ) (list : List Entry) → AgreesAs (seen over.old ram.now) (shape_of conf.now) conf.now items list
        → HasSpareFor conf.now list (32 + text_words (length key.now) + text_words (length value.now)) over.old }
    ensures room { over.new.room ≡ over.old.room }
    ensures list { (items : List ℕ) (list : List Entry) → AgreesAs (seen over.old ram.now) (shape_of conf.now) conf.now items list
        → IsPut conf.now ram.now over.old over.new moment key.now value.now dies list result }
{
    remove_key(ram, conf, over, key);
    let length = value.len() as u64;
    let Some(first) = make_room(ram, conf, over, moment, span_of(conf, length)) else {
        return false;
    };
    add_entry(
        ram,
        conf,
        over,
        key,
        value,
        &Fields {
            dies,
            first,
            length,
        },
    );
    true
}
