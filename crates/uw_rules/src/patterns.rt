// Compiled patterns, and what makes them.
ghost use Rattle.std.specs.Prelude.{ℕ};
ghost use Rattle.uw_rules.specs.Patterns.{IsBuilt};

use regex::bytes::Regex;
use std::alloc::Global;

/// What a maker of patterns answers to a text.
#[derive(Drop)]
pub enum Built {
    /// The compiled pattern. It searches in bytes.
    Pattern(Regex),
    /// The text is no pattern, or one that nests more than 250 deep.
    Syntax,
    /// The maker refused the text for another reason, and counted that.
    Refused,
    /// No memory was left.
    Memory,
}

/// A maker of compiled patterns that counts its refusals.
pub trait Patterns {
    /// How many texts it has refused for another reason than their syntax or want of memory.
    ghost faults: { Self → ℕ };

    /// Compiles a pattern, which has the syntax of the crate `regex`.
    fn build(&mut self, alloc: Global, text: &str) -> Built
        ensures built { IsBuilt (faults self.old) (faults self.new) result text.now };
}
