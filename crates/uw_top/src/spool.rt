// The rounds of the command `spool`.
ghost use Rattle.std.specs.Prelude.{◌≡◌, ◌<◌, ◌++◌, ℕ, true, Some, Ok, Err, IfOk, OnOk};
ghost use Rattle.uw_outside.specs.Faults.{HasCause};
ghost use Rattle.uw_outside.specs.Streams.{outflow};
ghost use Rattle.uw_keeper.specs.Keeping.{keeping};
ghost use Rattle.uw_rules.specs.Compiled.{rules_of};
ghost use Rattle.uw_rules.specs.PartNumbers.{AskPartsBelow};
ghost use Rattle.uw_chain.specs.KeptSearches.{FitTable};
ghost use Rattle.uw_conf.specs.Given.{parts_in};
ghost use Rattle.uw_conf.specs.Sound.{ArePartsOfSite};
ghost use Rattle.uw_model.specs.Lists.{Lists};
ghost use Rattle.uw_spool.specs.declared.report.RoundFault.TheVariants as rounds;
ghost use Rattle.uw_session.specs.Exchange.{IsSiteOf, Site};
ghost use Rattle.uw_top.specs.Pipe.{first_lists, has_failed_to_write, list_leads};
ghost use Rattle.uw_top.specs.Spool.{SpoolRun, gone_rows, outcome_text, report_text, round_text, task_line_text};
ghost use Rattle.uw_top.specs.SpoolSteps.{RoundsRun, RunsRound, WritesLast, WritesRound, WritesText};

use std::alloc::Global;
use uw_base::{Bytes, Memory, put_decimal, put_signed};
use uw_cachecmd::put_in_twenty_digits;
use uw_chain::Searches;
use uw_conf::Conf;
use uw_ends::RunFault;
use uw_keeper::Keeper;
use uw_model::{Desk, OwnDesk};
use uw_outside::{Clock, Immortal, Sink, put_all};
use uw_shared::LocalDesk;
use uw_spool::{Outcome, RoundFault, RoundReport, TaskLine, round_with};

// Puts what came of a row at the end of a text.
fn put_outcome(text: &mut Bytes, outcome: Outcome) -> Result<(), Memory>
    ensures { OnOk result (text.new ≡ text.old ++ outcome_text outcome) }
{
    match outcome {
        Outcome::Bad => text.append(b"bad"),
        Outcome::Later => text.append(b"later"),
        Outcome::Status(status) => put_signed(text, status),
    }
}

// Puts the line of a row at the end of a text.
fn put_line(text: &mut Bytes, line: TaskLine) -> Result<(), Memory>
    ensures { OnOk result (text.new ≡ text.old ++ task_line_text line) }
{
    put_in_twenty_digits(text, line.number)?;
    text.push(b' ')?;
    put_outcome(text, line.outcome)?;
    text.append(if line.gone { b" gone\n" } else { b" kept\n" })
}

// Puts the lines of a report at the end of a text.
fn put_report(text: &mut Bytes, report: &[TaskLine]) -> Result<(), Memory>
    ensures { OnOk result (text.new ≡ text.old ++ report_text report.now) }
{
    for line in report {
        put_line(text, *line)?;
    }
    Ok(())
}

// How many rows of a report went.
fn gone_rows(report: &[TaskLine]) -> usize
    ensures { result ≡ gone_rows report.now }
{
    let mut gone = 0;
    for line in report {
        if line.gone {
            gone += 1;
        }
    }
    gone
}

// The lines of a spooler's round, and the line behind them.
fn round_text(alloc: Global, spooler: u32, report: &RoundReport) -> Result<Bytes, Memory>
    ensures { IfOk result (λ text. text ≡ round_text spooler report.now) }
{
    let lines = report.as_slice();
    let mut text = Bytes::new(alloc);
    put_report(&mut text, lines)?;
    text.append(b"spooler ")?;
    put_decimal(&mut text, u64::from(spooler))?;
    text.append(b" tasks ")?;
    put_decimal(&mut text, lines.len() as u64)?;
    text.append(b" gone ")?;
    put_decimal(&mut text, gone_rows(lines) as u64)?;
    text.append(b"\n")?;
    Ok(text)
}

// The lines of a report.
fn report_text(alloc: Global, report: &RoundReport) -> Result<Bytes, Memory>
    ensures { IfOk result (λ text. text ≡ report_text report.now) }
{
    let mut text = Bytes::new(alloc);
    put_report(&mut text, report.as_slice())?;
    Ok(text)
}

// Writes a text.
fn write_text<K: Sink>(text: &Bytes, snk: &mut K) -> Option<RunFault>
    ensures written { WritesText (outflow K.taken K.faults snk.old snk.new) text.now result }
    ensures cause { HasCause (K.faults snk.old) (K.faults snk.new) (has_failed_to_write result) }
{
    match put_all(snk, text.as_slice()) {
        Ok(()) => None,
        Err(_) => Some(RunFault::WriteFault),
    }
}

// Writes the lines of a round.
fn write_round<K: Sink>(
    alloc: Global,
    spooler: u32,
    report: &RoundReport,
    snk: &mut K,
) -> Option<RunFault>
    ensures written { WritesRound spooler report.now (outflow K.taken K.faults snk.old snk.new) result }
    ensures cause { HasCause (K.faults snk.old) (K.faults snk.new) (has_failed_to_write result) }
{
    match round_text(alloc, spooler, report) {
        Ok(text) => write_text(&text, snk),
        Err(_) => Some(RunFault::Memory),
    }
}

// Writes the lines of a round in which the keeper failed.
fn write_short_round<K: Sink>(alloc: Global, report: &RoundReport, snk: &mut K) -> RunFault
    ensures written { (spooler : ℕ) → WritesLast spooler (Err (rounds.KeeperFault report.now)) (outflow K.taken K.faults snk.old snk.new) result }
    ensures cause { HasCause (K.faults snk.old) (K.faults snk.new) (has_failed_to_write (Some result)) }
{
    match report_text(alloc, report) {
        Ok(text) => match write_text(&text, snk) {
            None => RunFault::KeeperFault,
            Some(fault) => fault,
        },
        Err(_) => RunFault::Memory,
    }
}

// Writes what is told of a round that did not come to its end.
fn write_fault<K: Sink>(alloc: Global, fault: RoundFault, snk: &mut K) -> RunFault
    ensures written { (spooler : ℕ) → WritesLast spooler (Err fault) (outflow K.taken K.faults snk.old snk.new) result }
    ensures cause { HasCause (K.faults snk.old) (K.faults snk.new) (has_failed_to_write (Some result)) }
{
    match fault {
        RoundFault::KeeperFault { done } => write_short_round(alloc, &done, snk),
        // A worker that does not die is never dead.
        RoundFault::Died { .. } => RunFault::Memory,
        RoundFault::Memory { .. } => RunFault::Memory,
    }
}

// Runs the round of a spooler, and writes its lines.
fn run_round<'c, K: Sink, D: Desk, P: Keeper>(
    alloc: Global,
    searches: &mut Searches<'c>,
    conf: &'c Conf,
    now: u64,
    spooler: u32,
    snk: &mut K,
    desk: &mut D,
    keep: &mut P,
) -> Option<RunFault>
    requires spooler { spooler < conf.now.spoolers }
    requires fits { FitTable conf.now.tasks searches.old }
    requires known { AskPartsBelow (D.parts desk.old) (rules_of conf.now.tasks) }
    ensures runs { (site : Site) → IsSiteOf conf.now site → RunsRound D.leads site now spooler desk.old desk.new (keeping P.rows P.append_faults P.other_faults keep.old) (keeping P.rows P.append_faults P.other_faults keep.new)
        (outflow K.taken K.faults snk.old snk.new) result }
    ensures fits { FitTable conf.now.tasks searches.new }
    ensures parts { D.parts desk.new ≡ D.parts desk.old }
    ensures settled { D.settled desk.old ≡ true → D.settled desk.new ≡ true }
    ensures cause { HasCause (K.faults snk.old) (K.faults snk.new) (has_failed_to_write result) }
{
    let life = &mut Immortal::new();
    let spoolers = conf.spoolers;
    match round_with(
        alloc,
        searches,
        &conf.tasks,
        now,
        spooler,
        spoolers,
        life,
        desk,
        keep,
    ) {
        Ok(report) => write_round(alloc, spooler, &report, snk),
        Err(fault) => Some(write_fault(alloc, fault, snk)),
    }
}

/// Runs the rounds of all spoolers of a configuration, one after the other, at one moment, and writes the lines of each
/// by one write where the sink takes it whole. Where the keeper failed, the rows that its round reports are written.
pub fn spool<'c, K: Sink, D: OwnDesk, P: Keeper>(
    alloc: Global,
    searches: &mut Searches<'c>,
    conf: &'c Conf,
    now: u64,
    snk: &mut K,
    desk: &mut D,
    keep: &mut P,
) -> Option<RunFault>
    requires fits { FitTable conf.now.tasks searches.old }
    requires known { AskPartsBelow (D.parts desk.old) (rules_of conf.now.tasks) }
    ensures spools { (site : Site) → IsSiteOf conf.now site → RoundsRun D.leads site now desk.old desk.new
        (keeping P.rows P.append_faults P.other_faults keep.old) (keeping P.rows P.append_faults P.other_faults keep.new)
        (outflow K.taken K.faults snk.old snk.new) result }
    ensures stands { (site : Site) (lists : Lists) → IsSiteOf conf.now site → D.stands desk.old lists
        → (after : Lists) × D.stands desk.new after × RoundsRun list_leads site now lists after
        (keeping P.rows P.append_faults P.other_faults keep.old) (keeping P.rows P.append_faults P.other_faults keep.new)
        (outflow K.taken K.faults snk.old snk.new) result }
    ensures fits { FitTable conf.now.tasks searches.new }
    ensures settled { D.settled desk.old ≡ true → D.settled desk.new ≡ true }
{
    for spooler in 0..conf.spoolers {
        match run_round(alloc, searches, conf, now, spooler, snk, desk, keep) {
            None => {}
            Some(fault) => return Some(fault),
        }
    }
    None
}

/// The command `spool`, over a configuration: the rounds at the one moment that the clock is asked for.
pub fn spooled<K: Sink, C: Clock, P: Keeper>(
    alloc: Global,
    conf: Conf,
    snk: &mut K,
    clock: &mut C,
    keep: &mut P,
) -> Option<RunFault>
    requires parts { ArePartsOfSite conf.caches conf.areas }
    requires known { AskPartsBelow (parts_in conf) (rules_of conf.tasks) }
    ensures spools { (site : Site) → IsSiteOf conf site → (lists : Lists) × SpoolRun list_leads (first_lists site.options) lists (keeping P.rows P.append_faults P.other_faults keep.old) (keeping P.rows P.append_faults P.other_faults keep.new) site
        (outflow K.taken K.faults snk.old snk.new)
        (C.gave clock.old clock.new) result }
{
    let now = clock.now();
    let mut desk = match LocalDesk::new(alloc, &conf.caches, &conf.areas) {
        Ok(desk) => desk,
        Err(_) => return Some(RunFault::Memory),
    };
    let mut searches = match Searches::new(alloc, &conf.tasks) {
        Ok(searches) => searches,
        Err(_) => return Some(RunFault::Memory),
    };
    spool(alloc, &mut searches, &conf, now, snk, &mut desk, keep)
}
