// The lines of a table of rules.
ghost use Rattle.std.specs.Prelude.{◌≡◌, List, [], ◌∷◌, ◌++◌, length, OnOk, OnErr};

use std::alloc::Global;
use std::marker::Model;
use uw_base::{Bytes, Memory};

/// A line of a table: its number in the file, its option and its value.
#[derive(Drop)]
pub struct RuleLine {
    pub line: u32,
    pub form: Bytes,
    pub text: Bytes,
}

/// The lines of a table. Contracts see them as the list of them.
#[derive(Drop)]
pub struct RuleLineList {
    lines: Vec<RuleLine>,
}

impl Model for RuleLineList {
    ghost use Rattle.std.specs.Prelude.{List};
    ghost use Rattle.uw_rules.specs.declared.lines.RuleLine.{RuleLine};

    ghost Value = { List RuleLine };

    ghost view = { λ l. l.lines.items };
}

impl RuleLineList {
    /// No line. Takes no memory.
    pub fn new(alloc: Global) -> RuleLineList
        ensures { result ≡ [] }
    {
        RuleLineList {
            lines: Vec::new(alloc),
        }
    }

    pub fn as_slice(&self) -> &[RuleLine]
        ensures { result.now ≡ self.now }
    {
        self.lines.as_slice()
    }

    /// The number of lines.
    pub fn len(&self) -> usize
        ensures { result ≡ length self.now }
    {
        self.lines.len()
    }

    /// Puts one line at the end.
    pub fn push(&mut self, line: RuleLine) -> Result<(), Memory>
        ensures ok { OnOk result (self.new ≡ self.old ++ line ∷ []) }
        ensures err { OnErr result (self.new ≡ self.old) }
    {
        self.lines.push(line)?;
        Ok(())
    }
}
