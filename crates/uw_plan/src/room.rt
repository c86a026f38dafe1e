// Where there is room for one more entry.
ghost use Rattle.std.specs.Prelude.{◌≡◌, ◌≤◌, ℕ, List, Some, length, is_some, IfSome};
ghost use Rattle.uw_model.specs.declared.entries.Entry.{Entry};
ghost use Rattle.uw_model.specs.Entries.{IsCacheConf};
ghost use Rattle.uw_model.specs.Layout.{words_of};
ghost use Rattle.uw_model.specs.Placement.{first_run, fits};
ghost use Rattle.uw_words.specs.Parts.{seen};
ghost use Rattle.uw_plan.specs.Agreement.{AgreesAs};
ghost use Rattle.uw_plan.specs.CallSteps.{HasEntries};
ghost use Rattle.uw_plan.specs.Regions.{shape_of};

use crate::region::shape_of;
use uw_bitmap::first_run;
use uw_model::CacheConf;
use uw_words::{Overlay, Ram};

/// The first block from which so many blocks are free, where there is room for one more entry. Takes no memory.
pub fn free_run(ram: &Ram, conf: &CacheConf, over: &Overlay, n: u64) -> Option<u64>
    requires conf { IsCacheConf conf.now }
    requires region { length ram.now ≡ words_of conf.now }
    requires some { HasEntries (seen over.now ram.now) conf.now }
    requires n { 1 ≤ n }
    ensures fits { (items : List ℕ) (list : List Entry)
        → AgreesAs (seen over.now ram.now) (shape_of conf.now) conf.now items list
        → is_some result ≡ fits conf.now list n }
    ensures run { (items : List ℕ) (list : List Entry)
        → AgreesAs (seen over.now ram.now) (shape_of conf.now) conf.now items list
        → IfSome result (λ first. first_run conf.now list n ≡ Some first) }
{
    let shape = shape_of(conf);
    if over.load(ram, shape.head + 9) >= shape.n_items {
        return None;
    }
    first_run(ram, over, &shape, n)
}
