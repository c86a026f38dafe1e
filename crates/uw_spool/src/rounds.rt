// A round of a spooler.
ghost use Rattle.std.specs.Prelude.{◌≡◌, ◌<◌, ◌≤◌, [], IfOk, IfSome, not, true, false};
ghost use Rattle.uw_outside.specs.Faults.{HasCause};
ghost use Rattle.uw_keeper.specs.Keeping.{keeping};
ghost use Rattle.uw_keeper.specs.Rows.{last_number};
ghost use Rattle.uw_rules.specs.Compiled.{rules_of};
ghost use Rattle.uw_rules.specs.PartNumbers.{AskPartsBelow};
ghost use Rattle.uw_rules.specs.Tables.{AreRulesOf};
ghost use Rattle.uw_chain.specs.KeptSearches.{FitTable};
ghost use Rattle.uw_spool.specs.Rounds.{Rounds, TaskRules, has_died_in_round, is_keeper_fault};
ghost use Rattle.uw_spool.specs.RoundSteps.{Counted, EndsRows, LastRow, NextRow, Passes, fault_behind, has_died_in_row, is_of_row_keeper};

use crate::report::{RoundFault, RoundReport, TaskLine};
use crate::turns::{RowFault, turn};
use std::alloc::Global;
use uw_chain::Searches;
use uw_keeper::{KeepFault, Keeper, Row};
use uw_model::Desk;
use uw_outside::Life;
use uw_rules::RuleTable;

// The row after a number, up to the last number, if there is one.
fn next_row<P: Keeper>(
    alloc: Global,
    number: u64,
    last: u64,
    keep: &mut P,
) -> Result<Option<Row>, RowFault>
    ensures row { NextRow (keeping P.rows P.append_faults P.other_faults keep.old) (keeping P.rows P.append_faults P.other_faults keep.new) number last result }
    ensures counts { Counted (keeping P.rows P.append_faults P.other_faults keep.old) (keeping P.rows P.append_faults P.other_faults keep.new) (is_of_row_keeper result) }
{
    match keep.next_after(alloc, number) {
        Ok(Some(row)) => {
            if row.number > last {
                return Ok(None);
            }
            Ok(Some(row))
        }
        Ok(None) => Ok(None),
        Err(KeepFault::Memory) => Err(RowFault::Memory),
        Err(_) => Err(RowFault::KeeperFault),
    }
}

// Passes the row after a number, and says its number: one of the spooler has its turn. None where there is no row up to
// the last number.
fn pass<'r, L: Life, D: Desk, P: Keeper>(
    alloc: Global,
    searches: &mut Searches<'r>,
    table: &'r RuleTable,
    now: u64,
    k: u32,
    n: u32,
    number: u64,
    last: u64,
    life: &mut L,
    desk: &mut D,
    keep: &mut P,
    lines: &mut Vec<TaskLine>,
) -> Result<Option<u64>, RowFault>
    requires spooler { k < n }
    requires fits { FitTable table.now searches.old }
    requires known { AskPartsBelow (D.parts desk.old) (rules_of table.now) }
    requires alive { L.alive life.old ≡ true }
    ensures passes { (rules : TaskRules) → AreRulesOf rules.naming.names rules.naming.labels (rules_of table.now) rules.rules
        → Passes (record { rules = rules; now = now; spooler = k; spoolers = n }) (record {
          leads = D.leads;
          before = desk.old;
          now = desk.new;
          kept = keeping P.rows P.append_faults P.other_faults keep.old;
          left = keeping P.rows P.append_faults P.other_faults keep.new;
          allowed = L.allowances life.old;
          still = L.allowances life.new;
        }) number last lines.old.items lines.new.items result }
    ensures rises { IfOk result (λ next. IfSome next (λ after. number < after)) }
    ensures counts { Counted (keeping P.rows P.append_faults P.other_faults keep.old) (keeping P.rows P.append_faults P.other_faults keep.new) (is_of_row_keeper result) }
    ensures fits { FitTable table.now searches.new }
    ensures cause { HasCause (L.deaths life.old) (L.deaths life.new) (has_died_in_row result) }
    ensures alive { L.alive life.new ≡ not (has_died_in_row result) }
    ensures parts { D.parts desk.new ≡ D.parts desk.old }
    ensures settled { D.settled desk.old ≡ true → has_died_in_row result ≡ false → D.settled desk.new ≡ true }
{
    let row = match next_row(alloc, number, last, keep) {
        Ok(Some(row)) => row,
        Ok(None) => return Ok(None),
        Err(fault) => return Err(fault),
    };
    if row.number % u64::from(n) != u64::from(k) {
        return Ok(Some(row.number));
    }
    match turn(alloc, searches, table, now, &row, life, desk, keep, lines) {
        Ok(()) => Ok(Some(row.number)),
        Err(fault) => Err(fault),
    }
}

// Passes all rows up to the last number, which the keeper told, in rising order.
fn pass_all<'r, L: Life, D: Desk, P: Keeper>(
    alloc: Global,
    searches: &mut Searches<'r>,
    table: &'r RuleTable,
    now: u64,
    k: u32,
    n: u32,
    last: u64,
    life: &mut L,
    desk: &mut D,
    keep: &mut P,
    lines: &mut Vec<TaskLine>,
) -> Result<(), RowFault>
    requires spooler { k < n }
    requires fits { FitTable table.now searches.old }
    requires known { AskPartsBelow (D.parts desk.old) (rules_of table.now) }
    requires alive { L.alive life.old ≡ true }
    requires first { lines.old.items ≡ [] }
    requires told { IfSome (P.rows keep.old) (λ kept. last_number kept ≡ last) }
    ensures ends { (rules : TaskRules) → AreRulesOf rules.naming.names rules.naming.labels (rules_of table.now) rules.rules
        → EndsRows (record { rules = rules; now = now; spooler = k; spoolers = n }) (record {
          leads = D.leads;
          before = desk.old;
          now = desk.new;
          kept = keeping P.rows P.append_faults P.other_faults keep.old;
          left = keeping P.rows P.append_faults P.other_faults keep.new;
          allowed = L.allowances life.old;
          still = L.allowances life.new;
        }) lines.new.items result }
    ensures counts { Counted (keeping P.rows P.append_faults P.other_faults keep.old) (keeping P.rows P.append_faults P.other_faults keep.new) (is_of_row_keeper result) }
    ensures fits { FitTable table.now searches.new }
    ensures cause { HasCause (L.deaths life.old) (L.deaths life.new) (has_died_in_row result) }
    ensures alive { L.alive life.new ≡ not (has_died_in_row result) }
    ensures parts { D.parts desk.new ≡ D.parts desk.old }
    ensures settled { D.settled desk.old ≡ true → has_died_in_row result ≡ false → D.settled desk.new ≡ true }
{
    let mut number = 0;
    while number < last {
        match pass(
            alloc, searches, table, now, k, n, number, last, life, desk, keep, lines,
        ) {
            Ok(Some(next)) => number = next,
            Ok(None) => return Ok(()),
            Err(fault) => return Err(fault),
        }
    }
    Ok(())
}

// The number of the last row, if there is one.
fn last_row<P: Keeper>(alloc: Global, keep: &mut P) -> Result<Option<u64>, RowFault>
    ensures row { LastRow (keeping P.rows P.append_faults P.other_faults keep.old) (keeping P.rows P.append_faults P.other_faults keep.new) result }
    ensures counts { Counted (keeping P.rows P.append_faults P.other_faults keep.old) (keeping P.rows P.append_faults P.other_faults keep.new) (is_of_row_keeper result) }
{
    match keep.last(alloc) {
        Ok(last) => Ok(last),
        Err(KeepFault::Memory) => Err(RowFault::Memory),
        Err(_) => Err(RowFault::KeeperFault),
    }
}

// Passes all rows of a keeper that has some.
fn run_rows<'r, L: Life, D: Desk, P: Keeper>(
    alloc: Global,
    searches: &mut Searches<'r>,
    table: &'r RuleTable,
    now: u64,
    k: u32,
    n: u32,
    life: &mut L,
    desk: &mut D,
    keep: &mut P,
    lines: &mut Vec<TaskLine>,
) -> Result<(), RowFault>
    requires spooler { k < n }
    requires fits { FitTable table.now searches.old }
    requires known { AskPartsBelow (D.parts desk.old) (rules_of table.now) }
    requires alive { L.alive life.old ≡ true }
    requires first { lines.old.items ≡ [] }
    ensures ends { (rules : TaskRules) → AreRulesOf rules.naming.names rules.naming.labels (rules_of table.now) rules.rules
        → EndsRows (record { rules = rules; now = now; spooler = k; spoolers = n }) (record {
          leads = D.leads;
          before = desk.old;
          now = desk.new;
          kept = keeping P.rows P.append_faults P.other_faults keep.old;
          left = keeping P.rows P.append_faults P.other_faults keep.new;
          allowed = L.allowances life.old;
          still = L.allowances life.new;
        }) lines.new.items result }
    ensures counts { Counted (keeping P.rows P.append_faults P.other_faults keep.old) (keeping P.rows P.append_faults P.other_faults keep.new) (is_of_row_keeper result) }
    ensures fits { FitTable table.now searches.new }
    ensures cause { HasCause (L.deaths life.old) (L.deaths life.new) (has_died_in_row result) }
    ensures alive { L.alive life.new ≡ not (has_died_in_row result) }
    ensures parts { D.parts desk.new ≡ D.parts desk.old }
    ensures settled { D.settled desk.old ≡ true → has_died_in_row result ≡ false → D.settled desk.new ≡ true }
{
    match last_row(alloc, keep) {
        Ok(Some(last)) => pass_all(
            alloc, searches, table, now, k, n, last, life, desk, keep, lines,
        ),
        Ok(None) => Ok(()),
        Err(fault) => Err(fault),
    }
}

/// Runs a round of spooler `k` of `n` at a moment in seconds, with the searches that are kept for the patterns of the
/// rules. The number of the last row is taken first, and then all rows up to it in rising order; those whose number
/// modulo `n` is `k` have their turns. A row without a task is reported and kept, and so is one whose task is to wait.
/// The task of any other row runs, and where its status is -2 the row is removed.
pub fn round_with<'r, L: Life, D: Desk, P: Keeper>(
    alloc: Global,
    searches: &mut Searches<'r>,
    table: &'r RuleTable,
    now: u64,
    k: u32,
    n: u32,
    life: &mut L,
    desk: &mut D,
    keep: &mut P,
) -> Result<RoundReport, RoundFault>
    requires spooler { k < n }
    requires fits { FitTable table.now searches.old }
    requires known { AskPartsBelow (D.parts desk.old) (rules_of table.now) }
    requires alive { L.alive life.old ≡ true }
    ensures rounds { (rules : TaskRules) → AreRulesOf rules.naming.names rules.naming.labels (rules_of table.now) rules.rules
        → Rounds (record { rules = rules; now = now; spooler = k; spoolers = n })
        (record {
          leads = D.leads;
          before = desk.old;
          now = desk.new;
          kept = keeping P.rows P.append_faults P.other_faults keep.old;
          left = keeping P.rows P.append_faults P.other_faults keep.new;
          allowed = L.allowances life.old;
          still = L.allowances life.new;
        }) result }
    ensures fits { FitTable table.now searches.new }
    ensures cause { HasCause (L.deaths life.old) (L.deaths life.new) (has_died_in_round result) }
    ensures faults { HasCause (P.other_faults keep.old) (P.other_faults keep.new) (is_keeper_fault result) }
    ensures appends { P.append_faults keep.old ≤ P.append_faults keep.new }
    ensures alive { L.alive life.new ≡ not (has_died_in_round result) }
    ensures parts { D.parts desk.new ≡ D.parts desk.old }
    ensures settled { D.settled desk.old ≡ true → has_died_in_round result ≡ false → D.settled desk.new ≡ true }
{
    let mut lines = Vec::new(alloc);
    match run_rows(
        alloc, searches, table, now, k, n, life, desk, keep, &mut lines,
    ) {
        Ok(()) => Ok(RoundReport::from_vec(lines)),
        Err(fault) => Err(round_fault(fault, RoundReport::from_vec(lines))),
    }
}

// A fault behind the rows of a report.
fn round_fault(fault: RowFault, done: RoundReport) -> RoundFault
    ensures { result ≡ fault_behind fault done }
{
    match fault {
        RowFault::KeeperFault => RoundFault::KeeperFault { done },
        RowFault::Died { whole } => RoundFault::Died { whole, done },
        RowFault::Memory => RoundFault::Memory { done },
    }
}

/// Runs a round of spooler `k` of `n` at a moment in seconds: as `round_with`, with searches that are made for this round
/// alone.
pub fn round<L: Life, D: Desk, P: Keeper>(
    alloc: Global,
    table: &RuleTable,
    now: u64,
    k: u32,
    n: u32,
    life: &mut L,
    desk: &mut D,
    keep: &mut P,
) -> Result<RoundReport, RoundFault>
    requires spooler { k < n }
    requires known { AskPartsBelow (D.parts desk.old) (rules_of table.now) }
    requires alive { L.alive life.old ≡ true }
    ensures rounds { (rules : TaskRules) → AreRulesOf rules.naming.names rules.naming.labels (rules_of table.now) rules.rules
        → Rounds (record { rules = rules; now = now; spooler = k; spoolers = n })
        (record {
          leads = D.leads;
          before = desk.old;
          now = desk.new;
          kept = keeping P.rows P.append_faults P.other_faults keep.old;
          left = keeping P.rows P.append_faults P.other_faults keep.new;
          allowed = L.allowances life.old;
          still = L.allowances life.new;
        }) result }
    ensures cause { HasCause (L.deaths life.old) (L.deaths life.new) (has_died_in_round result) }
    ensures faults { HasCause (P.other_faults keep.old) (P.other_faults keep.new) (is_keeper_fault result) }
    ensures appends { P.append_faults keep.old ≤ P.append_faults keep.new }
    ensures alive { L.alive life.new ≡ not (has_died_in_round result) }
    ensures parts { D.parts desk.new ≡ D.parts desk.old }
    ensures settled { D.settled desk.old ≡ true → has_died_in_round result ≡ false → D.settled desk.new ≡ true }
{
    match Searches::new(alloc, table) {
        Ok(mut searches) => round_with(alloc, &mut searches, table, now, k, n, life, desk, keep),
        Err(_) => Err(RoundFault::Memory {
            done: RoundReport::new(alloc),
        }),
    }
}
