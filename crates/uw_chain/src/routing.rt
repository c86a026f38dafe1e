// A request, or a task, on its way through a table of rules.
ghost use Rattle.std.specs.Prelude.{◌≡◌, ◌≤◌, List, not, true, false};
ghost use Rattle.uw_outside.specs.Faults.{HasCause};
ghost use Rattle.uw_rules.specs.PartNumbers.{AskPartsBelow, RuleAsksBelow};
ghost use Rattle.uw_rules.specs.Compiled.{IsRuleOf, rules_of};
ghost use Rattle.uw_rules.specs.Tables.{AreRulesOf};
ghost use Rattle.uw_rules.specs.WrittenRules.{WrittenRule};
ghost use Rattle.uw_chain.specs.Routing.{Naming, course_of_request, course_of_rule, course_of_rules, course_of_task};
ghost use Rattle.uw_chain.specs.Runs.{Routes, RunsTask, has_died_following, has_died_in_task, has_died_routing};
ghost use Rattle.uw_chain.specs.RoutingSteps.{RunsTo};
ghost use Rattle.uw_chain.specs.Spooling.{both_led, kept_by};
ghost use Rattle.uw_chain.specs.KeptSearches.{FitSlots, FitTable, FitsRule};

use crate::acting::act;
use crate::endings::status_of_task;
use crate::faults::{ChainEnd, ChainFault, Routed, TaskEnd};
use crate::judging::judge;
use crate::outcome::{Ending, Finish, Outcome, RouteEnd};
use crate::request::Request;
use crate::searches::{Searches, Slot};
use crate::verdict::Verdict;
use std::alloc::Global;
use uw_base::Vars;
use uw_keeper::Keeper;
use uw_model::{AskList, Desk};
use uw_outside::Life;
use uw_rules::RuleTable;
use uw_rules::compiled::Rule;

// Lets a rule act on a request, with the search that is kept for its pattern.
#[tactic(auto, using(crate::proofs::SpoolLemmas::kept_none))]
fn run_rule<'r, D: Desk, P: Keeper, L: Life>(
    alloc: Global,
    slot: &mut Slot<'r>,
    rule: &'r Rule,
    moment: u64,
    request: Request,
    asks: &mut AskList,
    desk: &mut D,
    keep: &mut P,
    life: &mut L,
) -> Result<Outcome, ChainEnd>
    requires fits { FitsRule rule.now slot.old }
    requires known { RuleAsksBelow (D.parts desk.old) rule.now }
    requires alive { L.alive life.old ≡ true }
    ensures runs { (naming : Naming) (written : WrittenRule) → IsRuleOf naming.names naming.labels rule.now written
        → RunsTo (both_led (D.leads desk.old desk.new) (kept_by P.rows P.append_faults P.other_faults keep.old keep.new)) (L.allowances life.old) (L.allowances life.new) moment
        (course_of_rule naming moment request written) asks.old asks.new result }
    ensures fits { FitsRule rule.now slot.new }
    ensures cause { HasCause (L.deaths life.old) (L.deaths life.new) (has_died_following result) }
    ensures alive { L.alive life.new ≡ not (has_died_following result) }
    ensures parts { D.parts desk.new ≡ D.parts desk.old }
    ensures settled { D.settled desk.old ≡ true → has_died_following result ≡ false → D.settled desk.new ≡ true }
    ensures later { P.append_faults keep.old ≤ P.append_faults keep.new }
    ensures others { P.other_faults keep.new ≡ P.other_faults keep.old }
{
    let Rule::Act { test, action } = rule else {
        return Ok(Outcome::GoesOn(request));
    };
    match judge(
        alloc,
        slot,
        test,
        &request.vars,
        moment,
        asks,
        desk,
        keep,
        life,
    )? {
        Verdict::Met(captures) => {
            act(
                alloc, action, &captures, moment, request, asks, desk, keep, life,
            )
        }
        Verdict::Missed => Ok(Outcome::GoesOn(request)),
        Verdict::Overlong => Ok(Outcome::Ends(Ending::Failing, request)),
    }
}

// Lets the rules act on a request, one after the other, from the first to the one that ends it.
fn run_rules<'r, D: Desk, P: Keeper, L: Life>(
    alloc: Global,
    slots: &mut [Slot<'r>],
    rules: &'r [Rule],
    moment: u64,
    first: Request,
    asks: &mut AskList,
    desk: &mut D,
    keep: &mut P,
    life: &mut L,
) -> Result<Finish, ChainEnd>
    requires fits { FitSlots rules.now slots.old }
    requires known { AskPartsBelow (D.parts desk.old) rules.now }
    requires alive { L.alive life.old ≡ true }
    ensures runs { (naming : Naming) (written : List WrittenRule) → AreRulesOf naming.names naming.labels rules.now written
        → RunsTo (both_led (D.leads desk.old desk.new) (kept_by P.rows P.append_faults P.other_faults keep.old keep.new)) (L.allowances life.old) (L.allowances life.new) moment
        (course_of_rules naming moment 0 0 written first) asks.old asks.new result }
    ensures fits { FitSlots rules.now slots.new }
    ensures cause { HasCause (L.deaths life.old) (L.deaths life.new) (has_died_following result) }
    ensures alive { L.alive life.new ≡ not (has_died_following result) }
    ensures parts { D.parts desk.new ≡ D.parts desk.old }
    ensures settled { D.settled desk.old ≡ true → has_died_following result ≡ false → D.settled desk.new ≡ true }
    ensures later { P.append_faults keep.old ≤ P.append_faults keep.new }
    ensures others { P.other_faults keep.new ≡ P.other_faults keep.old }
{
    let mut request = first;
    let mut at = 0;
    'rules: while at < rules.len() {
        match run_rule(
            alloc,
            &mut slots[at],
            &rules[at],
            moment,
            request,
            asks,
            desk,
            keep,
            life,
        )? {
            Outcome::GoesOn(changed) => {
                request = changed;
                at += 1;
            }
            Outcome::Jumps(number, changed) => {
                request = changed;
                at = (number as usize).max(at + 1);
            }
            Outcome::Ends(ending, request) => return Ok(Finish { ending, request }),
        }
    }
    let ending = Ending::OfTable;
    Ok(Finish { ending, request })
}

// Lets the rules act on a request, up to its reply.
fn end_request<'r, D: Desk, P: Keeper, L: Life>(
    alloc: Global,
    slots: &mut [Slot<'r>],
    rules: &'r [Rule],
    moment: u64,
    vars: Vars,
    asks: &mut AskList,
    desk: &mut D,
    keep: &mut P,
    life: &mut L,
) -> Result<RouteEnd, ChainEnd>
    requires fits { FitSlots rules.now slots.old }
    requires known { AskPartsBelow (D.parts desk.old) rules.now }
    requires alive { L.alive life.old ≡ true }
    ensures runs { (naming : Naming) (written : List WrittenRule) → AreRulesOf naming.names naming.labels rules.now written
        → RunsTo (both_led (D.leads desk.old desk.new) (kept_by P.rows P.append_faults P.other_faults keep.old keep.new)) (L.allowances life.old) (L.allowances life.new) moment
        (course_of_request naming written moment vars) asks.old asks.new result }
    ensures fits { FitSlots rules.now slots.new }
    ensures cause { HasCause (L.deaths life.old) (L.deaths life.new) (has_died_following result) }
    ensures alive { L.alive life.new ≡ not (has_died_following result) }
    ensures parts { D.parts desk.new ≡ D.parts desk.old }
    ensures settled { D.settled desk.old ≡ true → has_died_following result ≡ false → D.settled desk.new ≡ true }
    ensures later { P.append_faults keep.old ≤ P.append_faults keep.new }
    ensures others { P.other_faults keep.new ≡ P.other_faults keep.old }
{
    let request = Request::new(alloc, vars);
    match run_rules(alloc, slots, rules, moment, request, asks, desk, keep, life) {
        Ok(Finish { ending, request }) => match request.end(alloc, ending) {
            Ok(end) => Ok(end),
            Err(_) => Err(ChainEnd::Memory),
        },
        Err(end) => Err(end),
    }
}

// Lets the rules act on a task, up to its status.
fn end_task<'r, D: Desk, P: Keeper, L: Life>(
    alloc: Global,
    slots: &mut [Slot<'r>],
    rules: &'r [Rule],
    moment: u64,
    vars: Vars,
    asks: &mut AskList,
    desk: &mut D,
    keep: &mut P,
    life: &mut L,
) -> Result<i64, ChainEnd>
    requires fits { FitSlots rules.now slots.old }
    requires known { AskPartsBelow (D.parts desk.old) rules.now }
    requires alive { L.alive life.old ≡ true }
    ensures runs { (naming : Naming) (written : List WrittenRule) → AreRulesOf naming.names naming.labels rules.now written
        → RunsTo (both_led (D.leads desk.old desk.new) (kept_by P.rows P.append_faults P.other_faults keep.old keep.new)) (L.allowances life.old) (L.allowances life.new) moment
        (course_of_task naming written moment vars) asks.old asks.new result }
    ensures fits { FitSlots rules.now slots.new }
    ensures cause { HasCause (L.deaths life.old) (L.deaths life.new) (has_died_following result) }
    ensures alive { L.alive life.new ≡ not (has_died_following result) }
    ensures parts { D.parts desk.new ≡ D.parts desk.old }
    ensures settled { D.settled desk.old ≡ true → has_died_following result ≡ false → D.settled desk.new ≡ true }
    ensures later { P.append_faults keep.old ≤ P.append_faults keep.new }
    ensures others { P.other_faults keep.new ≡ P.other_faults keep.old }
{
    let request = Request::new(alloc, vars);
    match run_rules(alloc, slots, rules, moment, request, asks, desk, keep, life) {
        Ok(finish) => Ok(status_of_task(&finish.ending)),
        Err(end) => Err(end),
    }
}

/// Routes a request through the rules of a table, at a moment in seconds, with the searches that are kept for their
/// patterns. The asks are those of the rules, in their order; a fault has those that were answered.
pub fn route_with<'r, D: Desk, P: Keeper, L: Life>(
    alloc: Global,
    searches: &mut Searches<'r>,
    table: &'r RuleTable,
    vars: Vars,
    moment: u64,
    life: &mut L,
    desk: &mut D,
    keep: &mut P,
) -> Result<Routed, ChainFault>
    requires fits { FitTable table.now searches.old }
    requires known { AskPartsBelow (D.parts desk.old) (rules_of table.now) }
    requires alive { L.alive life.old ≡ true }
    ensures routes { (naming : Naming) (rules : List WrittenRule) → AreRulesOf naming.names naming.labels (rules_of table.now) rules
        → Routes (both_led (D.leads desk.old desk.new) (kept_by P.rows P.append_faults P.other_faults keep.old keep.new)) (L.allowances life.old) (L.allowances life.new) naming rules moment vars result }
    ensures fits { FitTable table.now searches.new }
    ensures cause { HasCause (L.deaths life.old) (L.deaths life.new) (has_died_routing result) }
    ensures alive { L.alive life.new ≡ not (has_died_routing result) }
    ensures parts { D.parts desk.new ≡ D.parts desk.old }
    ensures settled { D.settled desk.old ≡ true → has_died_routing result ≡ false → D.settled desk.new ≡ true }
    ensures later { P.append_faults keep.old ≤ P.append_faults keep.new }
    ensures others { P.other_faults keep.new ≡ P.other_faults keep.old }
{
    let mut asks = AskList::new(alloc);
    let slots = searches.slots.as_mut_slice();
    let rules = table.as_slice();
    match end_request(
        alloc, slots, rules, moment, vars, &mut asks, desk, keep, life,
    ) {
        Ok(RouteEnd { reply, head_only }) => Ok(Routed {
            reply,
            head_only,
            asks,
        }),
        Err(end) => Err(ChainFault { end, done: asks }),
    }
}

/// Routes a request through the rules of a table, at a moment in seconds: as `route_with`, with searches that are made
/// for this request alone.
pub fn route<D: Desk, P: Keeper, L: Life>(
    alloc: Global,
    table: &RuleTable,
    vars: Vars,
    moment: u64,
    life: &mut L,
    desk: &mut D,
    keep: &mut P,
) -> Result<Routed, ChainFault>
    requires known { AskPartsBelow (D.parts desk.old) (rules_of table.now) }
    requires alive { L.alive life.old ≡ true }
    ensures routes { (naming : Naming) (rules : List WrittenRule) → AreRulesOf naming.names naming.labels (rules_of table.now) rules
        → Routes (both_led (D.leads desk.old desk.new) (kept_by P.rows P.append_faults P.other_faults keep.old keep.new)) (L.allowances life.old) (L.allowances life.new) naming rules moment vars result }
    ensures cause { HasCause (L.deaths life.old) (L.deaths life.new) (has_died_routing result) }
    ensures alive { L.alive life.new ≡ not (has_died_routing result) }
    ensures parts { D.parts desk.new ≡ D.parts desk.old }
    ensures settled { D.settled desk.old ≡ true → has_died_routing result ≡ false → D.settled desk.new ≡ true }
    ensures later { P.append_faults keep.old ≤ P.append_faults keep.new }
    ensures others { P.other_faults keep.new ≡ P.other_faults keep.old }
{
    match Searches::new(alloc, table) {
        Ok(mut searches) => route_with(alloc, &mut searches, table, vars, moment, life, desk, keep),
        Err(_) => Err(ChainFault {
            end: ChainEnd::Memory,
            done: AskList::new(alloc),
        }),
    }
}

/// Runs a task: its variables through the rules of a table, at a moment in seconds, with the searches that are kept for
/// their patterns. The asks are those of the rules, in their order; a fault has those that were answered.
pub fn run_task_with<'r, D: Desk, P: Keeper, L: Life>(
    alloc: Global,
    searches: &mut Searches<'r>,
    table: &'r RuleTable,
    vars: Vars,
    moment: u64,
    life: &mut L,
    desk: &mut D,
    keep: &mut P,
) -> Result<TaskEnd, ChainFault>
    requires fits { FitTable table.now searches.old }
    requires known { AskPartsBelow (D.parts desk.old) (rules_of table.now) }
    requires alive { L.alive life.old ≡ true }
    ensures runs { (naming : Naming) (rules : List WrittenRule) → AreRulesOf naming.names naming.labels (rules_of table.now) rules
        → RunsTask (both_led (D.leads desk.old desk.new) (kept_by P.rows P.append_faults P.other_faults keep.old keep.new)) (L.allowances life.old) (L.allowances life.new) naming rules moment vars result }
    ensures fits { FitTable table.now searches.new }
    ensures cause { HasCause (L.deaths life.old) (L.deaths life.new) (has_died_in_task result) }
    ensures alive { L.alive life.new ≡ not (has_died_in_task result) }
    ensures parts { D.parts desk.new ≡ D.parts desk.old }
    ensures settled { D.settled desk.old ≡ true → has_died_in_task result ≡ false → D.settled desk.new ≡ true }
    ensures later { P.append_faults keep.old ≤ P.append_faults keep.new }
    ensures others { P.other_faults keep.new ≡ P.other_faults keep.old }
{
    let mut asks = AskList::new(alloc);
    let slots = searches.slots.as_mut_slice();
    let rules = table.as_slice();
    match end_task(
        alloc, slots, rules, moment, vars, &mut asks, desk, keep, life,
    ) {
        Ok(status) => Ok(TaskEnd { status, asks }),
        Err(end) => Err(ChainFault { end, done: asks }),
    }
}

/// Runs a task, at a moment in seconds: as `run_task_with`, with searches that are made for this task alone.
pub fn run_task<D: Desk, P: Keeper, L: Life>(
    alloc: Global,
    table: &RuleTable,
    vars: Vars,
    moment: u64,
    life: &mut L,
    desk: &mut D,
    keep: &mut P,
) -> Result<TaskEnd, ChainFault>
    requires known { AskPartsBelow (D.parts desk.old) (rules_of table.now) }
    requires alive { L.alive life.old ≡ true }
    ensures runs { (naming : Naming) (rules : List WrittenRule) → AreRulesOf naming.names naming.labels (rules_of table.now) rules
        → RunsTask (both_led (D.leads desk.old desk.new) (kept_by P.rows P.append_faults P.other_faults keep.old keep.new)) (L.allowances life.old) (L.allowances life.new) naming rules moment vars result }
    ensures cause { HasCause (L.deaths life.old) (L.deaths life.new) (has_died_in_task result) }
    ensures alive { L.alive life.new ≡ not (has_died_in_task result) }
    ensures parts { D.parts desk.new ≡ D.parts desk.old }
    ensures settled { D.settled desk.old ≡ true → has_died_in_task result ≡ false → D.settled desk.new ≡ true }
    ensures later { P.append_faults keep.old ≤ P.append_faults keep.new }
    ensures others { P.other_faults keep.new ≡ P.other_faults keep.old }
{
    match Searches::new(alloc, table) {
        Ok(mut searches) => run_task_with(
            alloc,
            &mut searches,
            table,
            vars,
            moment,
            life,
            desk,
            keep,
        ),
        Err(_) => Err(ChainFault {
            end: ChainEnd::Memory,
            done: AskList::new(alloc),
        }),
    }
}
