//! Laws of the definitions, over all texts. Each is the contract of a function that does nothing.
ghost use Rattle.std.specs.Prelude.{◌≡◌, ℕ, ◌≤◌, ◌++◌, List, [], length, map, unwrap_or, false, None, Some, Ok, Err};
ghost use Rattle.std.specs.List.{AllByRecursion};
ghost use Rattle.std.specs.Str.Lines.{lines};
ghost use Rattle.uw_model.specs.declared.conf.CacheConf.{CacheConf};
ghost use Rattle.uw_model.specs.AreaLayout.{area_words};
ghost use Rattle.uw_model.specs.AreaOps.{IsAreaSize};
ghost use Rattle.uw_model.specs.Entries.{IsCacheConf};
ghost use Rattle.uw_model.specs.Layout.{words_of};
ghost use Rattle.uw_conf.specs.declared.conf.Options.{Options};
ghost use Rattle.uw_conf.specs.Caches.{blank_draft, conf_of};
ghost use Rattle.uw_conf.specs.declared.conf.ConfFault.{ConfFault};
ghost use Rattle.uw_conf.specs.declared.options.OptionKind.TheVariants as of;
ghost use Rattle.uw_conf.specs.Configuration.{configuration_of, most_text_bytes, said_by};
ghost use Rattle.uw_conf.specs.Laws.{IsLeastRefusal, IsPlainLine, last_value, number_or, refusal_at, settings_of};
ghost use Rattle.uw_conf.specs.Reading.{blank_reading, reading_after};
ghost use Rattle.uw_conf.specs.Regions.{all_bytes, most_region_bytes};
ghost use Rattle.uw_conf.specs.Routes.{cache_names_of, site_names_of};
ghost use Rattle.uw_conf.specs.Sound.{HasLimits, HaveOwnNames};

/// A text that is not refused defines at most 16 caches, each with its numbers within their limits and with a name of its
/// own, and all regions together are within theirs, those of its areas among them.
pub fn caches_are_within_their_limits()
    ensures each { (text : List ℕ) (conf : Options) → configuration_of text ≡ Ok conf → AllByRecursion IsCacheConf conf.caches }
    ensures few { (text : List ℕ) (conf : Options) → configuration_of text ≡ Ok conf → length conf.caches ≤ 16 }
    ensures names { (text : List ℕ) (conf : Options) → configuration_of text ≡ Ok conf → HaveOwnNames conf.caches }
    ensures small { (text : List ℕ) (conf : Options) → configuration_of text ≡ Ok conf
        → all_bytes conf.caches conf.areas ≤ most_region_bytes }
{}

/// A text that is not refused defines at most 16 areas, each of 1 to 16,777,216 bytes.
pub fn areas_are_within_their_limits()
    ensures each { (text : List ℕ) (conf : Options) → configuration_of text ≡ Ok conf → AllByRecursion IsAreaSize conf.areas }
    ensures few { (text : List ℕ) (conf : Options) → configuration_of text ≡ Ok conf → length conf.areas ≤ 16 }
{}

/// A text that is not refused leaves each other number within its limits, whether it says the number or not.
pub fn numbers_are_within_their_limits()
    ensures { (text : List ℕ) (conf : Options) → configuration_of text ≡ Ok conf → HasLimits conf }
{}

/// A cache of 20,000 items for which nothing else is said takes this many words.
pub fn default_cache_has_its_words()
    ensures { (name : List ℕ) → words_of (conf_of blank_draft name 20000) ≡ 170126756 }
{}

/// An area of one page takes this many words.
pub fn an_area_of_one_page_has_its_words()
    ensures { area_words 4096 ≡ 2088 }
{}

/// The refused line of a text within the limit is its least line that has a refusal, where those before it define what
/// they say. A text that is not refused has no such line, and says what all its lines say.
pub fn refused_line_is_the_least()
    ensures refused { (text : List ℕ) (fault : ConfFault) → length text ≤ most_text_bytes → configuration_of text ≡ Err fault
        → IsLeastRefusal (lines text) fault }
    ensures none { (text : List ℕ) (conf : Options) (number : ℕ) → configuration_of text ≡ Ok conf → refusal_at (lines text) number ≡ None }
    ensures says { (text : List ℕ) (conf : Options) → configuration_of text ≡ Ok conf
        → conf ≡ (reading_after blank_reading (lines text)).conf }
{}

/// An option that holds one number or text counts by its last line in the section, and has its default where there is
/// none.
pub fn options_count_by_their_last_line()
    ensures buffer_size { (text : List ℕ) (conf : Options) → configuration_of text ≡ Ok conf
        → conf.buffer_size ≡ number_or 4096 (last_value of.BufferSize (settings_of text)) }
    ensures workers { (text : List ℕ) (conf : Options) → configuration_of text ≡ Ok conf
        → conf.workers ≡ number_or 1 (last_value of.Workers (settings_of text)) }
    ensures harakiri { (text : List ℕ) (conf : Options) → configuration_of text ≡ Ok conf
        → conf.harakiri ≡ number_or 0 (last_value of.Harakiri (settings_of text)) }
    ensures expire_freq { (text : List ℕ) (conf : Options) → configuration_of text ≡ Ok conf
        → conf.expire_freq ≡ number_or 3 (last_value of.ExpireFreq (settings_of text)) }
    ensures spoolers { (text : List ℕ) (conf : Options) → configuration_of text ≡ Ok conf
        → conf.spoolers ≡ number_or 1 (last_value of.Spoolers (settings_of text)) }
    ensures spool_freq { (text : List ℕ) (conf : Options) → configuration_of text ≡ Ok conf
        → conf.spool_freq ≡ number_or 30 (last_value of.SpoolFreq (settings_of text)) }
    ensures socket { (text : List ℕ) (conf : Options) → configuration_of text ≡ Ok conf
        → conf.socket ≡ unwrap_or (last_value of.Socket (settings_of text)) [] }
{}

/// The names under which the rules of a text are read are those of its caches, in their order, and there are as many
/// areas as it has.
pub fn a_configuration_names_its_caches()
    ensures caches { (text : List ℕ) (conf : Options) → configuration_of text ≡ Ok conf
        → cache_names_of (lines text) ≡ map (λ (cache : CacheConf). cache.name) conf.caches }
    ensures areas { (text : List ℕ) (conf : Options) → configuration_of text ≡ Ok conf
        → (site_names_of (lines text)).areas ≡ length conf.areas }
{}

/// Lines of other sections change nothing, as long as each is a text of UTF-8: as many other ones in their place leave
/// what the lines of a text say, and its refused line.
pub fn lines_of_other_sections_change_nothing()
    ensures { (front others more back : List (List ℕ)) → (reading_after blank_reading front).inside ≡ Some false
        → AllByRecursion IsPlainLine others → AllByRecursion IsPlainLine more → length others ≡ length more
        → said_by (front ++ others ++ back) ≡ said_by (front ++ more ++ back) }
{}
