// The keeper of rows.
ghost use Rattle.std.specs.Prelude.{◌≡◌, ℕ, List, Option};
ghost use Rattle.uw_outside.specs.Faults.{HasCause};
ghost use Rattle.uw_keeper.specs.declared.keeper.Row.{Row};
ghost use Rattle.uw_keeper.specs.Keeping.{Appends, GivesNext, Removes, TellsLast, is_of_keeper};

use std::alloc::{AllocFailed, Global};
use uw_base::{Bytes, Memory};

/// A row: its number, from 1 on, and its bytes.
#[derive(Drop)]
pub struct Row {
    pub number: u64,
    pub bytes: Bytes,
}

/// Why a call of a keeper was refused. Its rows are as they were.
#[derive(Clone, Copy, Debug, PartialEq, Eq)]
pub enum KeepFault {
    /// No row has the number.
    Absent { number: u64 },
    /// The last row has the last number, 2^64 - 1.
    NoNumber,
    /// The keeper failed.
    KeeperFault,
    /// No memory was left.
    Memory,
}

impl From<Memory> for KeepFault {
    ghost use Rattle.uw_keeper.specs.declared.keeper.KeepFault.TheVariants as faults;

    ghost from_gives = { λ _ fault. fault ≡ faults.Memory };

    fn from(_: Memory) -> KeepFault {
        KeepFault::Memory
    }
}

impl<T: Drop> From<AllocFailed<T>> for KeepFault {
    ghost use Rattle.uw_keeper.specs.declared.keeper.KeepFault.TheVariants as faults;

    ghost from_gives = { λ _ fault. fault ≡ faults.Memory };

    fn from(_: AllocFailed<T>) -> KeepFault {
        KeepFault::Memory
    }
}

/// Keeps rows under rising numbers ("Spooler").
pub trait Keeper {
    /// The rows in rising order, where the keeper tells them. Whether it tells is settled when it is made.
    ghost rows: { Self → Option (List Row) };

    /// How often `append` has failed.
    ghost append_faults: { Self → ℕ };

    /// How often the other calls have failed.
    ghost other_faults: { Self → ℕ };

    /// The number of the last row, if there is one.
    fn last(&mut self, alloc: Global) -> Result<Option<u64>, KeepFault>
        ensures tells { TellsLast (rows self.old) result }
        ensures rows { rows self.new ≡ rows self.old }
        ensures cause { HasCause (other_faults self.old) (other_faults self.new) (is_of_keeper result) }
        ensures appends { append_faults self.new ≡ append_faults self.old };

    /// Puts a row behind the last one, and says its number: that of the last row plus 1, or 1 where there is none.
    /// NoNumber where the last row has the last number.
    fn append(&mut self, alloc: Global, bytes: &[u8]) -> Result<u64, KeepFault>
        ensures appended { Appends (rows self.old) (rows self.new) bytes.now result }
        ensures cause { HasCause (append_faults self.old) (append_faults self.new) (is_of_keeper result) }
        ensures others { other_faults self.new ≡ other_faults self.old };

    /// Removes the row of a number. Absent where no row has it.
    fn remove(&mut self, alloc: Global, number: u64) -> Result<(), KeepFault>
        ensures removed { Removes (rows self.old) (rows self.new) number result }
        ensures cause { HasCause (other_faults self.old) (other_faults self.new) (is_of_keeper result) }
        ensures appends { append_faults self.new ≡ append_faults self.old };

    /// The row of the least number above another one, if there is one.
    fn next_after(&mut self, alloc: Global, number: u64) -> Result<Option<Row>, KeepFault>
        ensures gives { GivesNext (rows self.old) number result }
        ensures rows { rows self.new ≡ rows self.old }
        ensures cause { HasCause (other_faults self.old) (other_faults self.new) (is_of_keeper result) }
        ensures appends { append_faults self.new ≡ append_faults self.old };
}
