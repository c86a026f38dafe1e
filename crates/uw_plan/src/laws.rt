//! Laws of the region of a cache. Each is the contract of a function that does nothing.
ghost use Rattle.std.specs.Prelude.{◌≡◌, ℕ, List};
ghost use Rattle.uw_model.specs.declared.conf.CacheConf.{CacheConf};
ghost use Rattle.uw_model.specs.declared.entries.Entry.{Entry};
ghost use Rattle.uw_model.specs.Entries.{IsCacheConf};
ghost use Rattle.uw_words.specs.Plans.{region};
ghost use Rattle.uw_intent.specs.Standing.{IsLocal};
ghost use Rattle.uw_plan.specs.Agreement.{Agrees};
ghost use Rattle.uw_plan.specs.CacheKind.{cache_kind};
ghost use Rattle.uw_plan.specs.CountedWalks.{AreCountedWalks};
ghost use Rattle.uw_plan.specs.Example.{example_conf, example_list, example_words};
ghost use Rattle.uw_plan.specs.Regions.{shape_of};

/// The words of a region agree with one list at most.
pub fn a_region_agrees_with_one_list()
    ensures { (conf : CacheConf) (words : List ℕ) (list other : List Entry) → IsCacheConf conf → Agrees conf words list
        → Agrees conf words other → list ≡ other }
{}

/// Whether the words of a region agree with a list depends on its length, its gate and the words beyond the redo record.
pub fn a_region_depends_on_words_beyond_its_record()
    ensures { (conf : CacheConf) → IsCacheConf conf → IsLocal (cache_kind conf) }
{}

/// The region that is written out by hand agrees with its two entries.
pub fn the_example_agrees_with_its_entries()
    ensures { Agrees example_conf example_words example_list }
{}

/// Counted walks over the words of a region that agrees with a list give the items of the recency list, the free items and
/// the items of each chain, each whole.
pub fn a_region_is_read_by_counted_walks()
    ensures { (conf : CacheConf) (words : List ℕ) (list : List Entry) → IsCacheConf conf → (agrees : Agrees conf words list)
        → AreCountedWalks (region words) (shape_of conf) agrees.items list }
{}
