//! Laws of the definitions, over all tables. Each is the contract of a function that does nothing.
ghost use Rattle.std.specs.Prelude.{◌≡◌, ◌<◌, ℕ, List, codes, Some, None, true, false, length, slice_get, Option};
ghost use Rattle.uw_rules.specs.declared.grammar.ActionName.TheVariants as actions;
ghost use Rattle.uw_rules.specs.declared.compiled.Rule.{Rule};
ghost use Rattle.uw_rules.specs.declared.lines.RuleLine.{RuleLine};
ghost use Rattle.uw_rules.specs.declared.grammar.Table.{Table};
ghost use Rattle.uw_rules.specs.declared.grammar.Table.TheVariants as tables;
ghost use Rattle.uw_rules.specs.Arguments.{SiteNames, is_ahead, is_label};
ghost use Rattle.uw_rules.specs.Compiled.{cache_named};
ghost use Rattle.uw_rules.specs.Grammar.{ArgumentShape, action_of};
ghost use Rattle.uw_rules.specs.PartNumbers.{AskPartsBelow};
ghost use Rattle.uw_rules.specs.Rules.{place_of_label, rule_refusal_at, table_of};
ghost use Rattle.uw_rules.specs.Tables.{AreRulesOf, NoneRefusedBefore};
ghost use Rattle.uw_rules.specs.WrittenRules.{Phrase, WrittenTest, label, rule};

/// The place of a label is ahead of a rule exactly where a later line that is not refused is that label.
pub fn a_label_ahead_is_a_later_line_that_is_not_refused()
    ensures ahead { (names : SiteNames) (lines : List RuleLine) (here : ℕ) (text : List ℕ) → is_label text ≡ true
        → is_ahead here (place_of_label lines text) ≡ true
        → (there : ℕ) × (here < there) × (slice_get (table_of lines) there ≡ Some (label text)) × (rule_refusal_at names lines there false ≡ None) }
    ensures later { (names : SiteNames) (lines : List RuleLine) (here there : ℕ) (text : List ℕ) → here < there
        → slice_get (table_of lines) there ≡ Some (label text) → rule_refusal_at names lines there false ≡ None
        → is_ahead here (place_of_label lines text) ≡ true }
{}

/// The label of a `goto` that is not refused is ahead.
pub fn a_goto_leads_ahead()
    ensures { (names : SiteNames) (lines : List RuleLine) (here : ℕ) (table : Table) (test : WrittenTest) (action : Phrase) (shape : ArgumentShape)
        (text : List ℕ) → slice_get (table_of lines) here ≡ Some (rule table test action) → action_of table action.name ≡ Some (actions.Goto, shape) → action.argument ≡ Some text
        → rule_refusal_at names lines here false ≡ None → is_ahead here (place_of_label lines text) ≡ true }
{}

/// The number of a cache is below the count of caches.
pub fn a_number_of_a_cache_is_that_of_one()
    ensures { (names : List (List ℕ)) (text : Option (List ℕ)) (number : ℕ) → cache_named names text ≡ Some number → number < length names }
{}

/// Rules that are those of lines of which none is refused ask caches and areas of numbers below the counts alone,
/// wherever their labels lead.
pub fn rules_ask_parts_that_there_are()
    ensures { (names : SiteNames) (labels : List ℕ → Option ℕ) (lines : List RuleLine) (rules : List Rule)
        → NoneRefusedBefore names lines (length lines) → AreRulesOf names.caches labels rules (table_of lines)
        → AskPartsBelow (record { caches = length names.caches; areas = names.areas }) rules }
{}

/// An action of one table alone is unknown in the other.
pub fn an_action_of_one_table_is_unknown_in_the_other()
    ensures reply { action_of tables.Tasks (codes "send") ≡ None }
    ensures status { action_of tables.Requests (codes "spool-end") ≡ None }
{}
