// A rule as it is written: a line, parted into its test and its action.
ghost use Rattle.std.specs.Prelude.{◌≡◌, Some};
ghost use Rattle.uw_rules.specs.WrittenRules.{phrase_of, rule_of_line, written_as};
ghost use Rattle.uw_rules.specs.declared.grammar.LineKind.TheVariants as kinds;
ghost use Rattle.uw_rules.specs.WrittenSteps.{parted_seen, phrase_seen, written_seen};

use crate::grammar::{LineKind, Subject, Table, kind_of_line};
use crate::lines::RuleLine;
use uw_base::texts::{cut, without_front};

/// A condition or an action: its name, and its argument, if it has one.
#[derive(Clone, Copy)]
pub struct Phrase<'a> {
    pub name: &'a [u8],
    pub argument: Option<&'a [u8]>,
}

/// When a rule runs.
#[derive(Clone, Copy)]
pub enum WrittenTest<'a> {
    Always,
    /// A pattern matches in the subject.
    Matching {
        subject: Subject,
        pattern: &'a [u8],
    },
    /// A condition holds; or, where it is negated, it does not.
    Holding {
        negated: bool,
        condition: Phrase<'a>,
    },
}

/// A rule.
#[derive(Clone, Copy)]
pub enum WrittenRule<'a> {
    /// A line without the space that parts a test from its action.
    Unparted,
    Label(&'a [u8]),
    /// A rule of a table.
    Rule {
        table: Table,
        test: WrittenTest<'a>,
        action: Phrase<'a>,
    },
}

/// The name ends at the first `:`, behind which the argument stands.
#[tactic(auto, unfolding(crate::specs::WrittenRules::phrase_of))]
pub fn phrase_of(text: &[u8]) -> Phrase<'_>
    ensures { phrase_seen result ≡ phrase_of text.now }
{
    let (name, argument) = cut(text, b':');
    Phrase { name, argument }
}

// The text before the first space, and the action behind it.
fn parted(text: &[u8]) -> Option<(&[u8], Phrase<'_>)>
    ensures { parted_seen text.now result }
{
    let (test, action) = cut(text, b' ');
    Some((test, phrase_of(without_front(action?))))
}

// A rule with a pattern.
fn with_pattern(table: Table, subject: Subject, text: &[u8]) -> WrittenRule<'_>
    ensures { written_seen result ≡ written_as (Some (table, kinds.Pattern subject)) text.now }
{
    match parted(text) {
        Some((pattern, action)) => WrittenRule::Rule {
            table,
            test: WrittenTest::Matching { subject, pattern },
            action,
        },
        None => WrittenRule::Unparted,
    }
}

// A rule with a condition.
fn with_condition(table: Table, negated: bool, text: &[u8]) -> WrittenRule<'_>
    ensures { written_seen result ≡ written_as (Some (table, kinds.Condition negated)) text.now }
{
    match parted(text) {
        Some((condition, action)) => WrittenRule::Rule {
            table,
            test: WrittenTest::Holding {
                negated,
                condition: phrase_of(condition),
            },
            action,
        },
        None => WrittenRule::Unparted,
    }
}

// A rule by its table and the kind of its line.
fn written_as(kind: Option<(Table, LineKind)>, text: &[u8]) -> WrittenRule<'_>
    ensures { written_seen result ≡ written_as kind text.now }
{
    match kind {
        Some((table, LineKind::Pattern(subject))) => with_pattern(table, subject, text),
        Some((table, LineKind::Always)) => WrittenRule::Rule {
            table,
            test: WrittenTest::Always,
            action: phrase_of(text),
        },
        Some((table, LineKind::Condition { negated })) => with_condition(table, negated, text),
        Some((_, LineKind::Label)) => WrittenRule::Label(text),
        None => WrittenRule::Unparted,
    }
}

/// The rule of a line.
#[tactic(auto, unfolding(crate::specs::WrittenRules::rule_of_line))]
pub fn written(line: &RuleLine) -> WrittenRule<'_>
    ensures { written_seen result ≡ rule_of_line line.now }
{
    written_as(kind_of_line(line.form.as_slice()), line.text.as_slice())
}
