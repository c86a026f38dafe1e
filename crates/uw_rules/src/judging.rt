// Whether a rule as written is refused for its texts.
ghost use Rattle.std.specs.Prelude.{◌≡◌, false, IfOk};
ghost use Rattle.std.specs.Option.{option_copied};
ghost use Rattle.uw_rules.specs.Arguments.{is_bad_argument};
ghost use Rattle.uw_rules.specs.CheckSteps.{failing, IsShortText, names_seen};
ghost use Rattle.uw_rules.specs.LabelSteps.{label_place};
ghost use Rattle.uw_rules.specs.Grammar.{action_of};
ghost use Rattle.uw_rules.specs.GrammarSteps.{shape_seen};
ghost use Rattle.uw_rules.specs.Rules.{any_place, any_text, any_text_of_test, has_bad_template, has_unknown_action, has_unknown_condition, has_unknown_name, is_bad_phrase, is_bad_rule, is_bad_test, is_label_twice, misses_label, pattern_of_rule, pattern_of_test};
ghost use Rattle.uw_rules.specs.Rules.{early_refusal, late_refusal};
ghost use Rattle.uw_rules.specs.WrittenRules.{holding};
ghost use Rattle.uw_rules.specs.WrittenSteps.{AreShort, IsShortPhrase, IsShortTest, phrase_seen, test_seen, written_seen};

use crate::RuleKind;
use crate::arguments::{has_stray, second_half};
use crate::checks::{Check, Names, is_label};
use crate::grammar::{Shape, Table, TextKind, action_of, condition_of};
use crate::labels::Labels;
use crate::written::{Phrase, WrittenRule, WrittenTest};
use std::alloc::Global;
use uw_base::Memory;

/// The most rules of a table.
pub const MOST_RULES: usize = 4_096;

/// What the rules of a table may name: the labels of the table, the caches and the areas.
#[derive(Drop)]
pub struct Site<'a> {
    pub labels: Labels<'a>,
    pub names: Names<'a>,
}

// Whether the argument is bad.
#[tactic(auto, unfolding(crate::specs::Arguments::is_bad_argument))]
fn is_bad_argument(alloc: Global, shape: Shape, argument: Option<&[u8]>) -> Result<bool, Memory>
    requires { IsShortText (option_copied argument) }
    ensures { IfOk result (λ bad. bad ≡ is_bad_argument (shape_seen shape) (option_copied argument.entry)) }
{
    if has_stray(alloc, shape, argument)? {
        return Ok(true);
    }
    Ok(Check::Kind.fails_any(shape, argument))
}

// Whether the condition has a bad argument.
fn is_bad_test(alloc: Global, test: WrittenTest<'_>) -> Result<bool, Memory>
    requires { IsShortTest (test_seen test) }
    ensures { IfOk result (λ bad. bad ≡ is_bad_test (test_seen test.entry)) }
{
    let WrittenTest::Holding { condition, .. } = test else {
        return Ok(false);
    };
    match condition_of(condition.name) {
        Some((_, shape)) => is_bad_argument(alloc, shape, condition.argument),
        None => Ok(false),
    }
}

// Whether the action has a bad argument.
fn is_bad_action(alloc: Global, table: Table, action: Phrase<'_>) -> Result<bool, Memory>
    requires { IsShortPhrase (phrase_seen action) }
    ensures { IfOk result (λ bad. bad
        ≡ is_bad_phrase (action_of table (phrase_seen action.entry).name) (phrase_seen action.entry).argument) }
{
    match action_of(table, action.name) {
        Some((_, shape)) => is_bad_argument(alloc, shape, action.argument),
        None => Ok(false),
    }
}

// Whether a text of the condition is one that is looked for.
fn any_text_of_test(check: Check<'_>, test: WrittenTest<'_>) -> bool
    requires { IsShortTest (test_seen test) }
    ensures { result ≡ any_text_of_test (failing check.entry) (test_seen test.entry) }
{
    let WrittenTest::Holding { condition, .. } = test else {
        return false;
    };
    match condition_of(condition.name) {
        Some((_, shape)) => check.fails_any(shape, condition.argument),
        None => false,
    }
}

// Whether a text of the action is one that is looked for.
fn any_text_of_action(check: Check<'_>, table: Table, action: Phrase<'_>) -> bool
    requires { IsShortPhrase (phrase_seen action) }
    ensures { result
        ≡ any_place (failing check.entry) (action_of table (phrase_seen action.entry).name) (phrase_seen action.entry).argument }
{
    match action_of(table, action.name) {
        Some((_, shape)) => check.fails_any(shape, action.argument),
        None => false,
    }
}

// Whether a text of the rule is one that is looked for.
fn any_text(check: Check<'_>, rule: WrittenRule<'_>) -> bool
    requires { AreShort (written_seen rule) }
    ensures { result ≡ any_text (failing check.entry) (written_seen rule.entry) }
{
    match rule {
        WrittenRule::Unparted | WrittenRule::Label(_) => false,
        WrittenRule::Rule {
            table,
            test,
            action,
        } => any_text_of_test(check, test) || any_text_of_action(check, table, action),
    }
}

// Whether a space or an argument is missing, an argument stands where there is none, or a label or an argument is bad.
#[tactic(auto, unfolding(crate::specs::Rules::is_bad_rule))]
fn is_bad_rule(alloc: Global, rule: WrittenRule<'_>) -> Result<bool, Memory>
    requires { AreShort (written_seen rule) }
    ensures { IfOk result (λ bad. bad ≡ is_bad_rule (written_seen rule.entry)) }
{
    match rule {
        WrittenRule::Unparted => Ok(true),
        WrittenRule::Label(text) => Ok(!is_label(text)),
        WrittenRule::Rule {
            table,
            test,
            action,
        } => {
            if is_bad_test(alloc, test)? {
                return Ok(true);
            }
            is_bad_action(alloc, table, action)
        }
    }
}

// Whether the condition's name is unknown.
#[tactic(auto, unfolding(crate::specs::Rules::has_unknown_condition))]
fn has_unknown_condition(rule: WrittenRule<'_>) -> bool
    ensures { result ≡ has_unknown_condition (written_seen rule.entry) }
{
    match rule {
        WrittenRule::Rule {
            test: WrittenTest::Holding { condition, .. },
            ..
        } => condition_of(condition.name).is_none(),
        _ => false,
    }
}

// Whether the action's name is unknown.
#[tactic(auto, unfolding(crate::specs::Rules::has_unknown_action))]
fn has_unknown_action(rule: WrittenRule<'_>) -> bool
    ensures { result ≡ has_unknown_action (written_seen rule.entry) }
{
    match rule {
        WrittenRule::Rule { table, action, .. } => action_of(table, action.name).is_none(),
        _ => false,
    }
}

// The pattern of a condition.
fn pattern_of_condition(condition: Phrase<'_>) -> Option<&[u8]>
    ensures { option_copied result ≡ pattern_of_test (holding false (phrase_seen condition.entry)) }
{
    match condition_of(condition.name) {
        Some((_, Shape::Divided(at, _, TextKind::Pattern))) => second_half(condition.argument, at),
        _ => None,
    }
}

/// The pattern of a rule, if it has one.
pub fn pattern_of(rule: WrittenRule<'_>) -> Option<&[u8]>
    ensures { option_copied result ≡ pattern_of_rule (written_seen rule.entry) }
{
    match rule {
        WrittenRule::Rule {
            test: WrittenTest::Matching { pattern, .. },
            ..
        } => Some(pattern),
        WrittenRule::Rule {
            test: WrittenTest::Holding { condition, .. },
            ..
        } => pattern_of_condition(condition),
        _ => None,
    }
}

// Whether an earlier line has the label.
#[tactic(auto, unfolding(crate::specs::Rules::is_label_twice))]
fn is_label_twice(labels: &Labels<'_>, here: usize, rule: WrittenRule<'_>) -> bool
    ensures { result ≡ is_label_twice (label_place labels.now) here (written_seen rule.entry) }
{
    let WrittenRule::Label(text) = rule else {
        return false;
    };
    match labels.place(text) {
        Some(first) => (first as usize) < here,
        None => false,
    }
}

// Whether a template of the rule has a bad form.
#[tactic(auto, unfolding(crate::specs::Rules::has_bad_template))]
fn has_bad_template(rule: WrittenRule<'_>) -> bool
    requires { AreShort (written_seen rule) }
    ensures { result ≡ has_bad_template (written_seen rule.entry) }
{
    any_text(Check::Template, rule)
}

// Whether the label of the `goto` is not ahead.
#[tactic(auto, unfolding(crate::specs::Rules::misses_label))]
fn misses_label(labels: &Labels<'_>, here: usize, rule: WrittenRule<'_>) -> bool
    requires { AreShort (written_seen rule) }
    ensures { result ≡ misses_label (label_place labels.now) here (written_seen rule.entry) }
{
    any_text(Check::Label { labels, here }, rule)
}

// Whether the rule names a cache or an area that there is not, or asks a cache where there is none.
#[tactic(auto, unfolding(crate::specs::Rules::has_unknown_name))]
fn has_unknown_name(names: Names<'_>, rule: WrittenRule<'_>) -> bool
    requires { AreShort (written_seen rule) }
    ensures { result ≡ has_unknown_name (names_seen names.entry) (written_seen rule.entry) }
{
    any_text(Check::Name(names), rule)
}

/// Why a rule is refused before its pattern is looked at.
pub fn early_refusal(
    alloc: Global,
    here: usize,
    rule: WrittenRule<'_>,
) -> Result<Option<RuleKind>, Memory>
    requires { AreShort (written_seen rule) }
    ensures { IfOk result (λ kind. kind ≡ early_refusal here (written_seen rule.entry)) }
{
    if MOST_RULES <= here {
        return Ok(Some(RuleKind::TooManyRules));
    }
    if is_bad_rule(alloc, rule)? {
        return Ok(Some(RuleKind::BadRule));
    }
    if has_unknown_condition(rule) {
        return Ok(Some(RuleKind::UnknownCondition));
    }
    Ok(None)
}

/// Why a rule is refused behind its pattern.
pub fn late_refusal(site: &Site<'_>, here: usize, rule: WrittenRule<'_>) -> Option<RuleKind>
    requires { AreShort (written_seen rule) }
    ensures { result ≡ late_refusal (names_seen site.now.names) (label_place site.now.labels) here (written_seen rule.entry) }
{
    if has_unknown_action(rule) {
        return Some(RuleKind::UnknownAction);
    }
    if has_bad_template(rule) {
        return Some(RuleKind::BadTemplate);
    }
    if is_label_twice(&site.labels, here, rule) {
        return Some(RuleKind::LabelTwice);
    }
    if misses_label(&site.labels, here, rule) {
        return Some(RuleKind::LabelNotAhead);
    }
    if has_unknown_name(site.names, rule) {
        return Some(RuleKind::UnknownName);
    }
    None
}
