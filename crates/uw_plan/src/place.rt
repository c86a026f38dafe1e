// Where the value of a key stands.
ghost use Rattle.std.specs.Prelude.{◌≡◌, List, []};
ghost use Rattle.uw_model.specs.declared.entries.Entry.{Entry};
ghost use Rattle.uw_model.specs.Entries.{IsCacheConf};
ghost use Rattle.uw_plan.specs.Agreement.{Agrees};
ghost use Rattle.uw_plan.specs.KeyEntries.{first_block};

use crate::lookup::item_of_key;
use crate::region::shape_of;
use uw_items::fields_of;
use uw_model::CacheConf;
use uw_words::{Overlay, Ram};

/// The first block of the entry of a key, whether it is alive or not, where nothing is planned. None where no entry has
/// the key. Takes no memory.
pub fn first_block(ram: &Ram, conf: &CacheConf, over: &Overlay, key: &[u8]) -> Option<u64>
    requires conf { IsCacheConf conf.now }
    requires region { (list : List Entry) × Agrees conf.now ram.now list }
    requires empty { over.now.writes ≡ [] }
    ensures { (list : List Entry) → Agrees conf.now ram.now list → result ≡ first_block list key.now }
{
    let item = item_of_key(ram, conf, over, key)?;
    Some(fields_of(ram, over, &shape_of(conf), item).first)
}
