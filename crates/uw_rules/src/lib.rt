//! Rules: what a table of lines says, compiled, or its first refused line.
#![tactic(auto)]

mod area_actions;
mod arguments;
mod checks;
pub mod compiled;
mod compiling;
mod grammar;
mod judging;
mod kinds;
mod labels;
pub mod laws;
mod lines;
pub mod patterns;
mod reading;
pub mod regex_patterns;
mod task_actions;
mod texts;
mod weight;
mod written;

pub use compiled::{Action, AreaStep, Condition, Rule, RuleTable, TaskPair, TaskPairs, Test};
pub use grammar::{Subject, Table, is_rule_option, table_of_option};
pub use kinds::{RuleKind, RulesError};
pub use lines::{RuleLine, RuleLineList};
pub use patterns::{Built, Patterns};
pub use reading::read_rules;
pub use regex_patterns::RegexPatterns;
