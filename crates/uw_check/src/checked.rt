// What a check of a configuration finds.
ghost use Rattle.std.specs.Prelude.{◌≡◌, ◌∷◌, ◌++◌, [], length, OnOk, OnErr};

use std::alloc::Global;
use std::marker::Model;
use uw_base::Memory;
use uw_conf::{Conf, ConfFault};

/// Refused lines, in the order in which they are told. Contracts see the list of them.
#[derive(Drop)]
pub struct FaultList {
    faults: Vec<ConfFault>,
}

impl Model for FaultList {
    ghost use Rattle.std.specs.Prelude.{List};
    ghost use Rattle.uw_conf.specs.declared.conf.ConfFault.{ConfFault};

    ghost Value = { List ConfFault };

    ghost view = { λ l. l.faults.items };
}

impl FaultList {
    /// The list with no line. Takes no memory.
    pub fn new(alloc: Global) -> FaultList
        ensures { result ≡ [] }
    {
        FaultList {
            faults: Vec::new(alloc),
        }
    }

    pub fn as_slice(&self) -> &[ConfFault]
        ensures { result.now ≡ self.now }
    {
        self.faults.as_slice()
    }

    /// The number of lines.
    pub fn len(&self) -> usize
        ensures { result ≡ length self.now }
    {
        self.faults.len()
    }

    /// Puts one line at the end.
    pub fn push(&mut self, fault: ConfFault) -> Result<(), Memory>
        ensures ok { OnOk result (self.new ≡ self.old ++ fault ∷ []) }
        ensures err { OnErr result (self.new ≡ self.old) }
    {
        self.faults.push(fault)?;
        Ok(())
    }
}

/// What a check finds.
#[derive(Drop)]
pub enum Checked {
    /// The text is taken, and says this.
    Taken(Conf),
    /// These lines of it are refused, one at least.
    Refused(FaultList),
}
