// Rules as written, compiled.
ghost use Rattle.std.specs.Prelude.{◌≡◌, ◌==◌, ◌<◌, ◌^◌, [], true, false, None, is_some, length, unwrap_or, option_and_then, IfOk, codes};
ghost use Rattle.std.specs.List.{position_from};
ghost use Rattle.std.specs.Str.{bytes_eq};
ghost use Rattle.std.specs.Option.{option_copied};
ghost use Rattle.uw_rules.specs.Arguments.{code_of, first_half, is_bad_argument, pattern_in, second_half, text_of_key};
ghost use Rattle.uw_rules.specs.CheckSteps.{IsShortText, names_seen};
ghost use Rattle.uw_rules.specs.Compiled.{IsConditionOf, IsRuleOf, IsTestOf, action_meant, cache_named, math_of, or_empty, write_of};
ghost use Rattle.uw_rules.specs.CompileSteps.{CanCompile, CanCompileTest, IsPatternIn, condition_shape, HasGoodTemplates, KnowsNames, action_shape};
ghost use Rattle.uw_rules.specs.LabelSteps.{label_place};
ghost use Rattle.uw_rules.specs.Grammar.{calculating_keys, keyed_texts, writing_keys};
ghost use Rattle.uw_rules.specs.Rules.{pattern_of_rule, pattern_of_test};
ghost use Rattle.uw_rules.specs.WrittenSteps.{AreShort, IsShortTest, test_seen, written_seen};
ghost use Rattle.uw_rules.specs.declared.grammar.ActionName.TheVariants as actions;
ghost use Rattle.uw_rules.specs.declared.grammar.ConditionName.TheVariants as conditions;

use crate::area_actions::{area_step, area_write, dec_num, inc_num, read, read_num, write_num};
use crate::arguments::{first_half, second_half, text_of_key};
use crate::checks::code_of;
use crate::compiled::{Action, AreaStep, CacheWrite, Condition, Rule, Test};
use crate::grammar::{ActionName, ConditionName, action_of, condition_of};
use crate::judging::Site;
use crate::labels::Labels;
use crate::task_actions::{status, task_pairs};
use crate::texts::{or_one, or_zero, template, template_at, template_if_any, text, text_if_any};
use crate::written::{WrittenRule, WrittenTest};
use regex::bytes::Regex;
use std::alloc::Global;
use uw_base::texts::is;
use uw_base::{Bytes, Memory};
use uw_model::MathOp;
use uw_subst::Template;

// The number of a cache's name.
fn number_of(names: &[Bytes], name: &[u8]) -> Option<u32>
    requires { length names.now < 2 ^ 32 }
    ensures { result ≡ position_from (bytes_eq name.now) 0 names.now }
{
    for number in 0..names.len() {
        if is(name, names[number].as_slice()) {
            return Some(number as u32);
        }
    }
    None
}

// The number of the cache that is named, if one is.
#[tactic(auto, unfolding(crate::specs::Compiled::cache_named))]
fn cache_named(names: &[Bytes], argument: Option<&[u8]>) -> Option<u32>
    requires { length names.now < 2 ^ 32 }
    ensures { result ≡ cache_named names.now (text_of_key (codes "name") (option_copied argument.entry)) }
{
    match text_of_key(argument, b"name") {
        Some(name) => number_of(names, name),
        None => None,
    }
}

// A write of an entry.
fn write_of(alloc: Global, names: &[Bytes], argument: Option<&[u8]>) -> Result<CacheWrite, Memory>
    requires names { length names.now < 2 ^ 32 }
    requires short { IsShortText (option_copied argument) }
    requires good { HasGoodTemplates (keyed_texts writing_keys) (option_copied argument) }
    ensures { IfOk result (λ write. write ≡ write_of names.now (option_copied argument.entry)) }
{
    let key = template_at(alloc, argument, b"key")?;
    let value = template_at(alloc, argument, b"value")?;
    Ok(CacheWrite {
        key,
        value,
        expires: or_zero(text_of_key(argument, b"expires")),
        cache: cache_named(names, argument),
        var: text_if_any(alloc, text_of_key(argument, b"var"))?,
    })
}

// A calculation with an entry.
fn math_of(
    alloc: Global,
    names: &[Bytes],
    op: MathOp,
    argument: Option<&[u8]>,
) -> Result<Action, Memory>
    requires names { length names.now < 2 ^ 32 }
    requires short { IsShortText (option_copied argument) }
    requires good { HasGoodTemplates (keyed_texts calculating_keys) (option_copied argument) }
    ensures { IfOk result (λ action. action ≡ math_of names.now op (option_copied argument.entry)) }
{
    let key = template_at(alloc, argument, b"key")?;
    Ok(Action::CacheMath {
        op,
        key,
        amount: or_one(text_of_key(argument, b"amount")),
        expires: or_zero(text_of_key(argument, b"expires")),
        cache: cache_named(names, argument),
        var: text_if_any(alloc, text_of_key(argument, b"var"))?,
    })
}

// The action of `cache`.
fn cache(alloc: Global, names: &[Bytes], argument: Option<&[u8]>) -> Result<Action, Memory>
    requires names { length names.now < 2 ^ 32 }
    requires short { IsShortText (option_copied argument) }
    requires good { HasGoodTemplates (action_shape actions.Cache) (option_copied argument) }
    ensures { IfOk result (λ action. action ≡ action_meant names.now (λ _. None) actions.Cache (option_copied argument.entry)) }
{
    let key = template_at(alloc, argument, b"key")?;
    let content_type = template_if_any(alloc, argument, b"content_type")?;
    Ok(Action::Cache {
        key,
        content_type,
        cache: cache_named(names, argument),
    })
}

// The action of `cachevar`.
fn cache_var(alloc: Global, names: &[Bytes], argument: Option<&[u8]>) -> Result<Action, Memory>
    requires names { length names.now < 2 ^ 32 }
    requires short { IsShortText (option_copied argument) }
    requires good { HasGoodTemplates (action_shape actions.CacheVar) (option_copied argument) }
    ensures { IfOk result (λ action. action ≡ action_meant names.now (λ _. None) actions.CacheVar (option_copied argument.entry)) }
{
    let key = template_at(alloc, argument, b"key")?;
    Ok(Action::CacheVar {
        key,
        cache: cache_named(names, argument),
        var: text(alloc, text_of_key(argument, b"var"))?,
    })
}

// The action of `cachedel`.
fn cache_del(alloc: Global, names: &[Bytes], argument: Option<&[u8]>) -> Result<Action, Memory>
    requires names { length names.now < 2 ^ 32 }
    requires short { IsShortText (option_copied argument) }
    requires good { HasGoodTemplates (action_shape actions.CacheDel) (option_copied argument) }
    ensures { IfOk result (λ action. action ≡ action_meant names.now (λ _. None) actions.CacheDel (option_copied argument.entry)) }
{
    let key = template_at(alloc, argument, b"key")?;
    Ok(Action::CacheDel {
        key,
        cache: cache_named(names, argument),
        var: text_if_any(alloc, text_of_key(argument, b"var"))?,
    })
}

// The action of `addvar`.
fn add_var(alloc: Global, argument: Option<&[u8]>) -> Result<Action, Memory>
    requires short { IsShortText (option_copied argument) }
    requires good { HasGoodTemplates (action_shape actions.AddVar) (option_copied argument) }
    ensures { IfOk result (λ action. action ≡ action_meant [] (λ _. None) actions.AddVar (option_copied argument.entry)) }
{
    let key = text(alloc, first_half(argument, b'='))?;
    let value = template(alloc, second_half(argument, b'='))?;
    Ok(Action::AddVar { key, value })
}

// The code of a status.
fn code(argument: Option<&[u8]>) -> u16
    ensures { result ≡ unwrap_or (option_and_then code_of (option_copied argument.entry)) 0 }
{
    match argument {
        Some(text) => code_of(text).unwrap_or(0),
        None => 0,
    }
}

// The number of a label's rule.
fn rule_of(labels: &Labels<'_>, argument: Option<&[u8]>) -> u32
    ensures { result ≡ unwrap_or (option_and_then (label_place labels.now) (option_copied argument.entry)) 0 }
{
    match argument {
        Some(text) => labels.place(text).unwrap_or(0),
        None => 0,
    }
}

/// The compiled action of an action that is not refused.
pub fn action_meant(
    alloc: Global,
    site: &Site<'_>,
    name: ActionName,
    argument: Option<&[u8]>,
) -> Result<Action, Memory>
    requires names { length site.now.names.caches.now < 2 ^ 32 }
    requires areas { site.now.names.areas < 2 ^ 32 }
    requires short { IsShortText (option_copied argument) }
    requires good { HasGoodTemplates (action_shape name) (option_copied argument) }
    requires known { KnowsNames (names_seen site.now.names) (action_shape name) (option_copied argument) }
    ensures { IfOk result (λ action. action
        ≡ action_meant site.now.names.caches.now (label_place site.now.labels) name (option_copied argument.entry)) }
{
    let names = site.names.caches;
    match name {
        ActionName::Continue => Ok(Action::Continue),
        ActionName::Break => Ok(Action::Break {
            status: text_if_any(alloc, argument)?,
        }),
        ActionName::Return => Ok(Action::Return {
            code: code(argument),
        }),
        ActionName::Goto => Ok(Action::Goto {
            rule: rule_of(&site.labels, argument),
        }),
        ActionName::Redirect => Ok(Action::Redirect {
            to: template(alloc, argument)?,
        }),
        ActionName::RedirectPermanent => Ok(Action::RedirectPermanent {
            to: template(alloc, argument)?,
        }),
        ActionName::Rewrite => Ok(Action::Rewrite {
            to: template(alloc, argument)?,
        }),
        ActionName::AddVar => add_var(alloc, argument),
        ActionName::AddHeader => Ok(Action::AddHeader {
            line: template(alloc, argument)?,
        }),
        ActionName::Send => Ok(Action::Send {
            text: template(alloc, argument)?,
        }),
        ActionName::Cache => cache(alloc, names, argument),
        ActionName::CacheVar => cache_var(alloc, names, argument),
        ActionName::CacheSet => Ok(Action::CacheSet(write_of(alloc, names, argument)?)),
        ActionName::CacheUpdate => Ok(Action::CacheUpdate(write_of(alloc, names, argument)?)),
        ActionName::CacheDel => cache_del(alloc, names, argument),
        ActionName::CacheInc => math_of(alloc, names, MathOp::Inc, argument),
        ActionName::CacheDec => math_of(alloc, names, MathOp::Dec, argument),
        ActionName::CacheMul => math_of(alloc, names, MathOp::Mul, argument),
        ActionName::CacheDiv => math_of(alloc, names, MathOp::Div, argument),
        ActionName::AreaRead => area_step(alloc, read(argument), argument),
        ActionName::AreaWrite => area_write(alloc, argument),
        ActionName::AreaNum => area_step(alloc, read_num(argument), argument),
        ActionName::AreaSet => area_step(alloc, write_num(argument), argument),
        ActionName::AreaInc => area_step(alloc, inc_num(argument), argument),
        ActionName::AreaDec => area_step(alloc, dec_num(argument), argument),
        ActionName::AreaUpdates => area_step(alloc, AreaStep::Updates, argument),
        ActionName::Spool => Ok(Action::Spool {
            pairs: task_pairs(alloc, argument)?,
        }),
        ActionName::SpoolEnd => Ok(Action::SpoolEnd {
            status: status(argument),
        }),
    }
}

// The two templates of a condition.
fn two_templates(alloc: Global, argument: Option<&[u8]>) -> Result<(Template, Template), Memory>
    requires short { IsShortText (option_copied argument) }
    requires good { HasGoodTemplates (condition_shape conditions.Equal) (option_copied argument) }
    ensures text { IfOk result (λ two. two.0 ≡ or_empty (first_half 59 (option_copied argument.entry))) }
    ensures other { IfOk result (λ two. two.1 ≡ or_empty (second_half 59 (option_copied argument.entry))) }
{
    let text = template(alloc, first_half(argument, b';'))?;
    let other = template(alloc, second_half(argument, b';'))?;
    Ok((text, other))
}

// The condition of `regexp`.
fn regexp(
    alloc: Global,
    argument: Option<&[u8]>,
    pattern: Option<Regex>,
) -> Result<Condition, Memory>
    requires short { IsShortText (option_copied argument) }
    requires good { HasGoodTemplates (condition_shape conditions.Regexp) (option_copied argument) }
    requires pattern { IsPatternIn (second_half 59 (option_copied argument)) pattern }
    requires some { is_some (second_half 59 (option_copied argument)) ≡ true }
    ensures { IfOk result (λ condition. IsConditionOf [] condition conditions.Regexp (option_copied argument.entry)) }
{
    let text = template(alloc, first_half(argument, b';'))?;
    match pattern {
        Some(pattern) => Ok(Condition::Regexp { text, pattern }),
        None => unreachable!(),
    }
}

// The condition of `incache`.
fn in_cache(alloc: Global, names: &[Bytes], argument: Option<&[u8]>) -> Result<Condition, Memory>
    requires names { length names.now < 2 ^ 32 }
    requires short { IsShortText (option_copied argument) }
    requires good { HasGoodTemplates (condition_shape conditions.InCache) (option_copied argument) }
    ensures { IfOk result (λ condition. IsConditionOf names.now condition conditions.InCache (option_copied argument.entry)) }
{
    let key = template_at(alloc, argument, b"key")?;
    Ok(Condition::InCache {
        key,
        cache: cache_named(names, argument),
    })
}

// The compiled condition of a condition that is not refused.
fn condition_meant(
    alloc: Global,
    names: &[Bytes],
    name: ConditionName,
    argument: Option<&[u8]>,
    pattern: Option<Regex>,
) -> Result<Condition, Memory>
    requires names { length names.now < 2 ^ 32 }
    requires short { IsShortText (option_copied argument) }
    requires good { HasGoodTemplates (condition_shape name) (option_copied argument) }
    requires taken { is_bad_argument (condition_shape name) (option_copied argument) ≡ false }
    requires pattern { IsPatternIn (pattern_in (condition_shape name) (option_copied argument)) pattern }
    ensures { IfOk result (λ condition. IsConditionOf names.now condition name (option_copied argument.entry)) }
{
    match name {
        ConditionName::Equal => {
            let (text, other) = two_templates(alloc, argument)?;
            Ok(Condition::Equal { text, other })
        }
        ConditionName::StartsWith => {
            let (text, other) = two_templates(alloc, argument)?;
            Ok(Condition::StartsWith { text, other })
        }
        ConditionName::EndsWith => {
            let (text, other) = two_templates(alloc, argument)?;
            Ok(Condition::EndsWith { text, other })
        }
        ConditionName::Contains => {
            let (text, other) = two_templates(alloc, argument)?;
            Ok(Condition::Contains { text, other })
        }
        ConditionName::Empty => Ok(Condition::Empty {
            text: template(alloc, argument)?,
        }),
        ConditionName::Regexp => regexp(alloc, argument, pattern),
        ConditionName::InCache => in_cache(alloc, names, argument),
    }
}

// The compiled test of a test that is not refused.
fn test_meant(
    alloc: Global,
    names: &[Bytes],
    test: WrittenTest<'_>,
    pattern: Option<Regex>,
) -> Result<Test, Memory>
    requires names { length names.now < 2 ^ 32 }
    requires short { IsShortTest (test_seen test) }
    requires taken { CanCompileTest (test_seen test) }
    requires pattern { IsPatternIn (pattern_of_test (test_seen test)) pattern }
    ensures { IfOk result (λ compiled. IsTestOf names.now compiled (test_seen test.entry)) }
{
    match test {
        WrittenTest::Always => Ok(Test::Always),
        WrittenTest::Matching { subject, .. } => match pattern {
            Some(pattern) => Ok(Test::Matches { subject, pattern }),
            None => unreachable!(),
        },
        WrittenTest::Holding { negated, condition } => match condition_of(condition.name) {
            Some((name, _)) => Ok(Test::Holds {
                negated,
                condition: condition_meant(alloc, names, name, condition.argument, pattern)?,
            }),
            None => unreachable!(),
        },
    }
}

/// The compiled rule of a rule that is not refused.
pub fn rule_meant(
    alloc: Global,
    site: &Site<'_>,
    rule: WrittenRule<'_>,
    pattern: Option<Regex>,
) -> Result<Rule, Memory>
    requires names { length site.now.names.caches.now < 2 ^ 32 }
    requires areas { site.now.names.areas < 2 ^ 32 }
    requires short { AreShort (written_seen rule) }
    requires taken { CanCompile (names_seen site.now.names) (written_seen rule) }
    requires pattern { IsPatternIn (pattern_of_rule (written_seen rule)) pattern }
    ensures { IfOk result (λ compiled. IsRuleOf site.now.names.caches.now (label_place site.now.labels) compiled (written_seen rule.entry)) }
{
    match rule {
        WrittenRule::Unparted => unreachable!(),
        WrittenRule::Label(_) => Ok(Rule::Label),
        WrittenRule::Rule {
            table,
            test,
            action,
        } => match action_of(table, action.name) {
            Some((name, _)) => Ok(Rule::Act {
                test: test_meant(alloc, site.names.caches, test, pattern)?,
                action: action_meant(alloc, site, name, action.argument)?,
            }),
            None => unreachable!(),
        },
    }
}
