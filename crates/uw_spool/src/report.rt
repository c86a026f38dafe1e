// What a round reports.
ghost use Rattle.std.specs.Prelude.{◌≡◌, ◌++◌, ◌∷◌, [], length, OnOk, OnErr};

use std::alloc::Global;
use std::marker::Model;
use uw_base::Memory;

/// What came of a row.
#[derive(Clone, Copy, Debug, PartialEq, Eq)]
pub enum Outcome {
    /// It holds no task.
    Bad,
    /// Its task is to wait.
    Later,
    /// Its task ran, and its status counts as -2, -1 or 0.
    Status(i64),
}

/// A row that was reported: its number, what came of it, and whether it was removed.
#[derive(Clone, Copy, Debug, PartialEq, Eq)]
pub struct TaskLine {
    pub number: u64,
    pub outcome: Outcome,
    pub gone: bool,
}

/// The rows of a round, in their order. Contracts see them as a list.
#[derive(Drop)]
pub struct RoundReport {
    lines: Vec<TaskLine>,
}

impl Model for RoundReport {
    ghost use Rattle.std.specs.Prelude.{List};
    ghost use Rattle.uw_spool.specs.declared.report.TaskLine.{TaskLine};

    ghost Value = { List TaskLine };

    ghost view = { λ r. r.lines.items };
}

impl RoundReport {
    /// No row. Takes no memory.
    pub fn new(alloc: Global) -> RoundReport
        ensures { result ≡ [] }
    {
        RoundReport {
            lines: Vec::new(alloc),
        }
    }

    /// The rows of a vector. Takes no memory.
    pub fn from_vec(lines: Vec<TaskLine>) -> RoundReport
        ensures { result ≡ lines.items }
    {
        RoundReport { lines }
    }

    pub fn as_slice(&self) -> &[TaskLine]
        ensures { result.now ≡ self.now }
    {
        self.lines.as_slice()
    }

    /// The number of rows.
    pub fn len(&self) -> usize
        ensures { result ≡ length self.now }
    {
        self.lines.len()
    }
}

/// Why a round did not come to its end, with the rows that it reports. What they say has happened. Of the task behind
/// them some or all asks may have been made too.
#[derive(Drop)]
pub enum RoundFault {
    /// The keeper failed.
    KeeperFault { done: RoundReport },
    /// The worker died in an ask of the next task, which counts where it is whole.
    Died { whole: bool, done: RoundReport },
    /// No memory was left.
    Memory { done: RoundReport },
}
