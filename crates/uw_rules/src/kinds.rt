// Why a rule is refused.
ghost use Rattle.std.specs.Prelude.{◌≡◌};

use uw_base::Memory;

/// Why a line of a table is refused.
#[derive(Clone, Copy, Debug, PartialEq, Eq)]
pub enum RuleKind {
    /// A space or an argument is missing, an argument stands where there is none, or a label or an argument is bad.
    BadRule,
    /// The text is no pattern, or one that nests too deep.
    BadPattern,
    /// The maker of patterns refused the pattern.
    PatternRefused,
    UnknownCondition,
    /// The action's name is unknown in its table.
    UnknownAction,
    /// An earlier line has the label.
    LabelTwice,
    /// No later line has the label of the `goto`.
    LabelNotAhead,
    /// A template has a bad form.
    BadTemplate,
    /// The table has more lines than 4,096.
    TooManyRules,
    /// The rule names a cache or an area that there is not, or asks a cache where there is none.
    UnknownName,
}

/// Why there is no table.
#[derive(Clone, Copy, Debug, PartialEq, Eq)]
pub enum RulesError {
    /// The line of this number is refused.
    Refused { line: u32, kind: RuleKind },
    /// No memory was left.
    Memory,
}

/// Why a step of reading a rule gives nothing, before the number of its line is known.
#[derive(Clone, Copy, Debug, PartialEq, Eq)]
pub enum Refusal {
    Refused(RuleKind),
    /// No memory was left.
    Memory,
}

impl From<Memory> for Refusal {
    ghost use Rattle.uw_rules.specs.declared.kinds.Refusal.TheVariants as refusals;

    ghost from_gives = { λ _ refusal. refusal ≡ refusals.Memory };

    fn from(_: Memory) -> Refusal {
        Refusal::Memory
    }
}

impl From<Memory> for RulesError {
    ghost use Rattle.uw_rules.specs.declared.kinds.RulesError.TheVariants as errors;

    ghost from_gives = { λ _ error. error ≡ errors.Memory };

    fn from(_: Memory) -> RulesError {
        RulesError::Memory
    }
}
