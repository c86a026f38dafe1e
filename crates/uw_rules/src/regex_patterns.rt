// Patterns compiled by the crate `regex`.
ghost use Rattle.std.specs.Prelude.{◌≡◌, ◌⊎◌, ℕ, min, true, if◌then◌else◌, IfOk, IfErr};
ghost use Rattle.regex.specs.Patterns.{Refuses};
ghost use Rattle.uw_outside.specs.Counts.{next_count, IsListed};
ghost use Rattle.uw_rules.specs.Patterns.{IsAnswerTo, IsBuilt, is_pattern, is_refused, pattern_config};
ghost use Rattle.uw_rules.specs.RegexPatterns.{RefusesPatterns};
ghost use Rattle.uw_rules.specs.Weight.{IsLight, IsReadWithWeight};

use crate::patterns::{Built, Patterns};
use crate::weight::{MOST_WEIGHT, weight_of};
use regex::Error;
use regex::bytes::Regex;
use regex_syntax::{Config, ErrorKind};
use std::alloc::Global;
use std::marker::Model;
use uw_outside::counts::{count_call, count_fault};

/// Makes patterns by the crate `regex`, under its own options and limits, and refuses those that weigh too much to be
/// searched with in a time that does not matter.
#[derive(Drop)]
pub struct RegexPatterns {
    refuse: Vec<u64>,
    calls: u64,
    faults: u64,
}

impl Model for RegexPatterns {
    ghost use Rattle.uw_rules.specs.RegexPatterns.{Maker};

    ghost Value = { Maker };

    ghost view = { λ m. record {
      refuse = m.refuse.items;
      calls = m.calls;
      faults = m.faults;
    } };
}

impl RegexPatterns {
    /// The maker that refuses the calls of `build` with these numbers, counted from 1, whatever the text. Takes no memory.
    pub fn new(refuse: Vec<u64>) -> RegexPatterns
        ensures { result ≡ record { refuse = refuse.items; calls = 0; faults = 0 } }
    {
        RegexPatterns {
            refuse,
            calls: 0,
            faults: 0,
        }
    }
}

impl Patterns for RegexPatterns {
    ghost faults = { λ m. m.faults };

    fn build(&mut self, alloc: Global, text: &str) -> Built
        ensures built { IsBuilt self.old.faults self.new.faults result text.now }

        // A listed call is refused, and another one only with a pattern. A pattern that is made is light.
        ensures listed { IsListed self.old.refuse self.old.calls → is_refused result ≡ true }
        ensures unlisted { IsListed self.old.refuse self.old.calls ⊎ RefusesPatterns text.now result }
        ensures light { IsLight text.now result }

        // The counts and the list.
        ensures counted { self.new.calls ≡ next_count self.old.calls }
        ensures faults { self.new.faults
            ≡ (if is_refused result then next_count self.old.faults else self.old.faults) }
        ensures refuse { self.new.refuse ≡ self.old.refuse }
    {
        if count_call(&mut self.calls, &self.refuse) {
            count_fault(&mut self.faults);
            return Built::Refused;
        }
        let built = made(alloc, text);
        if let Built::Refused = &built {
            count_fault(&mut self.faults);
        }
        built
    }
}

// What is made of a text: nothing of a heavy one.
fn made(alloc: Global, text: &str) -> Built
    ensures answer { IsAnswerTo text.now result }
    ensures refused { RefusesPatterns text.now result }
    ensures light { IsLight text.now result }
{
    match weighed(alloc, text) {
        Ok(weight) => {
            if weight <= MOST_WEIGHT {
                compiled(alloc, text)
            } else {
                Built::Refused
            }
        }
        Err(kind) => {
            if kind == ErrorKind::OutOfMemory {
                Built::Memory
            } else {
                Built::Syntax
            }
        }
    }
}

// The weight of what the crate reads from a text, or the greatest number where it weighs more.
fn weighed(alloc: Global, text: &str) -> Result<usize, ErrorKind>
    ensures weight { IfOk result (λ most. IsReadWithWeight text.now (λ n. most ≡ min n usize.MAX)) }
    ensures none { IfErr result (λ kind. Refuses pattern_config text.now kind) }
{
    match regex_syntax::parse(alloc, text, &options()) {
        Ok(parsed) => Ok(weight_of(&parsed.hir)),
        Err(error) => Err(error.kind),
    }
}

// The options under which a pattern is read.
fn options() -> Config
    ensures { result ≡ pattern_config }
{
    Config {
        utf8: false,
        ..Config::default()
    }
}

// What the crate makes of a text.
fn compiled(alloc: Global, text: &str) -> Built
    ensures answer { IsAnswerTo text.now result }
    ensures refused { RefusesPatterns text.now result }
{
    match Regex::new(alloc, text) {
        Ok(regex) => Built::Pattern(regex),
        Err(Error::Syntax(_)) => Built::Syntax,
        Err(Error::OutOfMemory) => Built::Memory,
        Err(Error::CompiledTooBig) => Built::Refused,
        Err(Error::Internal) => Built::Refused,
    }
}
