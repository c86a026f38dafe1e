// A table of rules, line by line.
ghost use Rattle.std.specs.Prelude.{◌≡◌, ◌<◌, ◌≤◌, ◌^◌, ℕ, List, length, IfOk, IfSome};
ghost use Rattle.std.specs.Option.{option_copied};
ghost use Rattle.std.specs.Str.{IsUtf8};
ghost use Rattle.uw_outside.specs.Faults.{HasCause};
ghost use Rattle.uw_rules.specs.CheckSteps.{names_seen};
ghost use Rattle.uw_rules.specs.Compiled.{rules_of};
ghost use Rattle.uw_rules.specs.LabelSteps.{label_place};
ghost use Rattle.uw_rules.specs.PartNumbers.{AskPartsBelow};
ghost use Rattle.uw_rules.specs.Rules.{pattern_of_rule, place_of_label};
ghost use Rattle.uw_rules.specs.Tables.{AreRuleLines, ReadsRules, tells_of_maker};
ghost use Rattle.uw_rules.specs.TableSteps.{GivesPattern, GivesPatternIfAny, GivesRule, error_of, is_step_of_maker};
ghost use Rattle.uw_rules.specs.WrittenSteps.{AreShort, written_seen};

use crate::checks::Names;
use crate::compiled::{Rule, RuleTable};
use crate::compiling::rule_meant;
use crate::judging::{Site, early_refusal, late_refusal, pattern_of};
use crate::kinds::{Refusal, RuleKind, RulesError};
use crate::labels::labels_of;
use crate::lines::{RuleLine, RuleLineList};
use crate::patterns::{Built, Patterns};
use crate::written::{WrittenRule, written};
use regex::bytes::Regex;
use std::alloc::Global;
use std::str;
use uw_base::BytesList;

// The pattern of a text.
fn built<M: Patterns>(alloc: Global, text: &[u8], make: &mut M) -> Result<Regex, Refusal>
    requires { IsUtf8 text.now }
    ensures gives { GivesPattern (M.faults make.old) (M.faults make.new) text.now result }
    ensures cause { HasCause (M.faults make.old) (M.faults make.new) (is_step_of_maker result) }
{
    let text = match str::from_utf8(text) {
        Ok(text) => text,
        Err(_) => unreachable!(),
    };
    match make.build(alloc, text) {
        Built::Pattern(pattern) => Ok(pattern),
        Built::Syntax => Err(Refusal::Refused(RuleKind::BadPattern)),
        Built::Refused => Err(Refusal::Refused(RuleKind::PatternRefused)),
        Built::Memory => Err(Refusal::Memory),
    }
}

// The pattern of a text, if there is one.
fn built_if_any<M: Patterns>(
    alloc: Global,
    text: Option<&[u8]>,
    make: &mut M,
) -> Result<Option<Regex>, Refusal>
    requires { IfSome (option_copied text) IsUtf8 }
    ensures gives { GivesPatternIfAny (M.faults make.old) (M.faults make.new) (option_copied text.entry) result }
    ensures cause { HasCause (M.faults make.old) (M.faults make.new) (is_step_of_maker result) }
{
    match text {
        Some(text) => match built(alloc, text, make) {
            Ok(pattern) => Ok(Some(pattern)),
            Err(refusal) => Err(refusal),
        },
        None => Ok(None),
    }
}

// One rule, at its place in the table.
fn read_rule<M: Patterns>(
    alloc: Global,
    site: &Site<'_>,
    here: usize,
    rule: WrittenRule<'_>,
    make: &mut M,
) -> Result<Rule, Refusal>
    requires names { length site.now.names.caches.now < 2 ^ 32 }
    requires areas { site.now.names.areas < 2 ^ 32 }
    requires short { AreShort (written_seen rule) }
    requires text { IfSome (pattern_of_rule (written_seen rule)) IsUtf8 }
    ensures gives { GivesRule (names_seen site.now.names) (label_place site.now.labels) here (M.faults make.old) (M.faults make.new)
        (written_seen rule.entry) result }
    ensures cause { HasCause (M.faults make.old) (M.faults make.new) (is_step_of_maker result) }
{
    if let Some(kind) = early_refusal(alloc, here, rule)? {
        return Err(Refusal::Refused(kind));
    }
    let pattern = match built_if_any(alloc, pattern_of(rule), make) {
        Ok(pattern) => pattern,
        Err(refusal) => return Err(refusal),
    };
    if let Some(kind) = late_refusal(site, here, rule) {
        return Err(Refusal::Refused(kind));
    }
    match rule_meant(alloc, site, rule, pattern) {
        Ok(rule) => Ok(rule),
        Err(_) => Err(Refusal::Memory),
    }
}

// The error of a refused line.
fn refused_line(line: &RuleLine, refusal: Refusal) -> RulesError
    ensures { result ≡ error_of line.now.line refusal }
{
    match refusal {
        Refusal::Refused(kind) => RulesError::Refused {
            line: line.line,
            kind,
        },
        Refusal::Memory => RulesError::Memory,
    }
}

// The rules of the lines.
fn read_lines<M: Patterns>(
    alloc: Global,
    site: &Site<'_>,
    lines: &[RuleLine],
    make: &mut M,
) -> Result<RuleTable, RulesError>
    requires names { length site.now.names.caches.now < 2 ^ 32 }
    requires areas { site.now.names.areas < 2 ^ 32 }
    requires lines { AreRuleLines lines.now }
    requires labels { (text : List ℕ) → label_place site.now.labels text ≡ place_of_label lines.now text }
    ensures reads { ReadsRules (names_seen site.now.names) lines.now (M.faults make.old) (M.faults make.new) result }
    ensures cause { HasCause (M.faults make.old) (M.faults make.new) (tells_of_maker result) }
{
    let mut table = RuleTable::new(alloc);
    for here in 0..lines.len() {
        let line = &lines[here];
        match read_rule(alloc, site, here, written(line), make) {
            Ok(rule) => table.push(rule)?,
            Err(refusal) => return Err(refused_line(line, refusal)),
        }
    }
    Ok(table)
}

/// What a table of rules says: its rules, compiled; or its first refused line. The caches have these names, by whose
/// places they are numbered, and there are so many shared areas. Each number of a cache in the rules is below the number
/// of names, each number of an area below that of areas, and a rule that asks the first cache stands only where there is
/// one. `PatternRefused` just where the maker refused a pattern and counted that.
pub fn read_rules<M: Patterns>(
    alloc: Global,
    lines: &RuleLineList,
    names: &BytesList,
    areas: u32,
    make: &mut M,
) -> Result<RuleTable, RulesError>
    requires lines { AreRuleLines lines.now }
    requires names { length names.now < 2 ^ 32 }
    ensures reads { ReadsRules (record { caches = names.now; areas = areas }) lines.now (M.faults make.old) (M.faults make.new) result }
    ensures cause { HasCause (M.faults make.old) (M.faults make.new) (tells_of_maker result) }
    ensures parts { IfOk result (λ table. AskPartsBelow (record { caches = length names.now; areas = areas }) (rules_of table)) }
{
    let site = Site {
        labels: labels_of(alloc, lines.as_slice())?,
        names: Names {
            caches: names.as_slice(),
            areas,
        },
    };
    read_lines(alloc, &site, lines.as_slice(), make)
}
