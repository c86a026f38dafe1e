// One row in its turn.
ghost use Rattle.std.specs.Prelude.{◌≡◌, not, true, false};
ghost use Rattle.uw_outside.specs.Faults.{HasCause};
ghost use Rattle.uw_keeper.specs.Keeping.{keeping};
ghost use Rattle.uw_rules.specs.Compiled.{rules_of};
ghost use Rattle.uw_rules.specs.PartNumbers.{AskPartsBelow};
ghost use Rattle.uw_rules.specs.Tables.{AreRulesOf};
ghost use Rattle.uw_chain.specs.KeptSearches.{FitTable};
ghost use Rattle.uw_chain.specs.Runs.{has_died_following};
ghost use Rattle.uw_spool.specs.Rounds.{TaskRules, is_done};
ghost use Rattle.uw_spool.specs.RoundSteps.{ClearsRow, Counted, MakesOutcome, TakesTurn, fault_of_end, has_died_in_row, is_of_row_keeper};
ghost use Rattle.uw_spool.specs.Tasks.{row_vars};

use crate::report::{Outcome, TaskLine};
use crate::tasks::{counted_status, is_later, row_vars};
use std::alloc::Global;
use uw_chain::{ChainEnd, Searches, run_task_with};
use uw_keeper::{KeepFault, Keeper, Row};
use uw_model::Desk;
use uw_outside::Life;
use uw_rules::RuleTable;

/// Why a round ends at a row.
#[derive(Clone, Copy)]
pub enum RowFault {
    /// The keeper failed.
    KeeperFault,
    /// The worker died in an ask, which counts where it is whole.
    Died { whole: bool },
    /// No memory was left.
    Memory,
}

// What comes of a row of these bytes.
fn outcome_of<'r, L: Life, D: Desk, P: Keeper>(
    alloc: Global,
    searches: &mut Searches<'r>,
    table: &'r RuleTable,
    now: u64,
    bytes: &[u8],
    life: &mut L,
    desk: &mut D,
    keep: &mut P,
) -> Result<Outcome, ChainEnd>
    requires fits { FitTable table.now searches.old }
    requires known { AskPartsBelow (D.parts desk.old) (rules_of table.now) }
    requires alive { L.alive life.old ≡ true }
    ensures outcome { (rules : TaskRules) → AreRulesOf rules.naming.names rules.naming.labels (rules_of table.now) rules.rules
        → MakesOutcome rules now (record {
          leads = D.leads;
          before = desk.old;
          now = desk.new;
          kept = keeping P.rows P.append_faults P.other_faults keep.old;
          left = keeping P.rows P.append_faults P.other_faults keep.new;
          allowed = L.allowances life.old;
          still = L.allowances life.new;
        }) (row_vars bytes.now) result }
    ensures counts { Counted (keeping P.rows P.append_faults P.other_faults keep.old) (keeping P.rows P.append_faults P.other_faults keep.new) false }
    ensures fits { FitTable table.now searches.new }
    ensures cause { HasCause (L.deaths life.old) (L.deaths life.new) (has_died_following result) }
    ensures alive { L.alive life.new ≡ not (has_died_following result) }
    ensures parts { D.parts desk.new ≡ D.parts desk.old }
    ensures settled { D.settled desk.old ≡ true → has_died_following result ≡ false → D.settled desk.new ≡ true }
{
    let Some(vars) = row_vars(alloc, bytes)? else {
        return Ok(Outcome::Bad);
    };
    if is_later(now, &vars) {
        return Ok(Outcome::Later);
    }
    match run_task_with(alloc, searches, table, vars, now, life, desk, keep) {
        Ok(end) => Ok(Outcome::Status(counted_status(end.status))),
        Err(fault) => Err(fault.end),
    }
}

// Whether a task is done.
fn is_done(outcome: Outcome) -> bool
    ensures { result ≡ is_done outcome }
{
    match outcome {
        Outcome::Status(status) => status == -2,
        Outcome::Bad | Outcome::Later => false,
    }
}

// Removes the row of a task that is done, and says whether it was there.
fn clear<P: Keeper>(
    alloc: Global,
    number: u64,
    outcome: Outcome,
    keep: &mut P,
) -> Result<bool, RowFault>
    ensures clears { ClearsRow (keeping P.rows P.append_faults P.other_faults keep.old) (keeping P.rows P.append_faults P.other_faults keep.new) number (is_done outcome) result }
    ensures counts { Counted (keeping P.rows P.append_faults P.other_faults keep.old) (keeping P.rows P.append_faults P.other_faults keep.new) (is_of_row_keeper result) }
{
    if !is_done(outcome) {
        return Ok(false);
    }
    match keep.remove(alloc, number) {
        Ok(()) => Ok(true),
        Err(KeepFault::Absent { .. }) => Ok(false),
        Err(KeepFault::KeeperFault) => Err(RowFault::KeeperFault),
        Err(KeepFault::Memory) => Err(RowFault::Memory),
        Err(KeepFault::NoNumber) => unreachable!(),
    }
}

// The fault of a row that the end of a chain is.
fn row_fault(end: ChainEnd) -> RowFault
    ensures { result ≡ fault_of_end end }
{
    match end {
        ChainEnd::Died { whole } => RowFault::Died { whole },
        ChainEnd::Memory => RowFault::Memory,
    }
}

/// Gives a row its turn, and puts its line behind the others. Room for the line is taken first, so that all that
/// happened is reported.
pub fn turn<'r, L: Life, D: Desk, P: Keeper>(
    alloc: Global,
    searches: &mut Searches<'r>,
    table: &'r RuleTable,
    now: u64,
    row: &Row,
    life: &mut L,
    desk: &mut D,
    keep: &mut P,
    lines: &mut Vec<TaskLine>,
) -> Result<(), RowFault>
    requires fits { FitTable table.now searches.old }
    requires known { AskPartsBelow (D.parts desk.old) (rules_of table.now) }
    requires alive { L.alive life.old ≡ true }
    ensures turn { (rules : TaskRules) → AreRulesOf rules.naming.names rules.naming.labels (rules_of table.now) rules.rules
        → TakesTurn rules now (record {
          leads = D.leads;
          before = desk.old;
          now = desk.new;
          kept = keeping P.rows P.append_faults P.other_faults keep.old;
          left = keeping P.rows P.append_faults P.other_faults keep.new;
          allowed = L.allowances life.old;
          still = L.allowances life.new;
        }) row.now lines.old.items lines.new.items result }
    ensures counts { Counted (keeping P.rows P.append_faults P.other_faults keep.old) (keeping P.rows P.append_faults P.other_faults keep.new) (is_of_row_keeper result) }
    ensures fits { FitTable table.now searches.new }
    ensures cause { HasCause (L.deaths life.old) (L.deaths life.new) (has_died_in_row result) }
    ensures alive { L.alive life.new ≡ not (has_died_in_row result) }
    ensures parts { D.parts desk.new ≡ D.parts desk.old }
    ensures settled { D.settled desk.old ≡ true → has_died_in_row result ≡ false → D.settled desk.new ≡ true }
{
    if lines.reserve(1).is_err() {
        return Err(RowFault::Memory);
    }
    let number = row.number;
    let bytes = row.bytes.as_slice();
    let outcome = match outcome_of(alloc, searches, table, now, bytes, life, desk, keep) {
        Ok(outcome) => outcome,
        Err(end) => return Err(row_fault(end)),
    };
    match clear(alloc, number, outcome, keep) {
        Ok(gone) => {
            lines.push_reserved(TaskLine {
                number,
                outcome,
                gone,
            });
            Ok(())
        }
        Err(fault) => Err(fault),
    }
}
