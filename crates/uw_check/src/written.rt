// A rule as it is written, parted into what is said of it.
use uw_base::texts::{cut, is, is_any, without_front};
use uw_rules::{Table, is_rule_option, table_of_option};

const LABELS: [&[u8]; 2] = [b"route-label", b"spool-label"];

const RUNS: [&[u8]; 2] = [b"route-run", b"spool-run"];

const CONDITIONS: [&[u8]; 4] = [b"route-if", b"route-if-not", b"spool-if", b"spool-if-not"];

/// A rule; what it doesn't have is left out.
#[derive(Clone, Copy)]
pub struct WrittenRule<'a> {
    pub label: Option<&'a [u8]>,
    pub pattern: Option<&'a [u8]>,
    pub condition: Option<&'a [u8]>,
    pub action: Option<&'a [u8]>,
    pub is_of_tasks: bool,
}

/// Whether an option is a rule's.
pub fn is_rule(name: &[u8]) -> bool {
    is_rule_option(name)
}

// The pattern of a condition, if it has one.
fn pattern_of(condition: &[u8]) -> Option<&[u8]> {
    let (_, pattern) = cut(condition.strip_prefix(b"regexp:")?, b';');
    pattern
}

/// The parts of a rule.
pub fn rule_of<'a>(name: &[u8], value: &'a [u8]) -> WrittenRule<'a> {
    let is_of_tasks = match table_of_option(name) {
        Some(Table::Tasks) => true,
        _ => false,
    };
    let bare = WrittenRule {
        label: None,
        pattern: None,
        condition: None,
        action: None,
        is_of_tasks,
    };
    if is_any(name, &LABELS) {
        return WrittenRule {
            label: Some(value),
            ..bare
        };
    }
    if is_any(name, &RUNS) {
        return WrittenRule {
            action: Some(value),
            ..bare
        };
    }
    let (test, rest) = cut(value, b' ');
    let action = match rest {
        Some(rest) => Some(without_front(rest)),
        None => None,
    };
    if is_any(name, &CONDITIONS) {
        return WrittenRule {
            condition: Some(test),
            pattern: pattern_of(test),
            action,
            ..bare
        };
    }
    WrittenRule {
        pattern: Some(test),
        action,
        ..bare
    }
}

/// The name of a condition or an action, which ends at the first `:`.
pub fn phrase_name(text: &[u8]) -> &[u8] {
    let (name, _) = cut(text, b':');
    name
}

/// The argument of a condition or an action of this name, if it is one and has one.
pub fn argument_of<'a>(text: &'a [u8], wanted: &[u8]) -> Option<&'a [u8]> {
    let (name, argument) = cut(text, b':');
    if is(name, wanted) { argument } else { None }
}
