// One ask.
ghost use Rattle.std.specs.Prelude.{◌≡◌, ◌<◌, ◌≤◌, ◌++◌, ◌∷◌, [], List, length, not, true, false, IsSome};
ghost use Rattle.uw_outside.specs.Faults.{HasCause};
ghost use Rattle.uw_packet.specs.BlockReads.{vars_block};
ghost use Rattle.uw_keeper.specs.Keeping.{keeping};
ghost use Rattle.uw_model.specs.declared.asks.Asked.{Asked};
ghost use Rattle.uw_model.specs.Asks.{IsOfPart};
ghost use Rattle.uw_rules.specs.PartNumbers.{IsNumberBelow};
ghost use Rattle.uw_chain.specs.Actions.{cache_ask};
ghost use Rattle.uw_chain.specs.Runs.{AsksOnce, has_died_following};
ghost use Rattle.uw_chain.specs.RoutingSteps.{PutsAside, end_of_fault};
ghost use Rattle.uw_chain.specs.Spooling.{CanBeAsked, both_led, kept_by};

use crate::faults::ChainEnd;
use crate::spooling::{put_row, row_of_task};
use std::alloc::Global;
use uw_base::{Bytes, Memory, Vars};
use uw_keeper::Keeper;
use uw_model::{Ask, AskAnswer, AskList, Call, Desk, DeskFault};
use uw_outside::Life;

/// Makes an ask, at a moment in seconds, and puts it with its answer at the end of the asks: an ask of a cache or an
/// area by a desk, one of the spool by a keeper. Room for both is taken first.
pub fn ask<D: Desk, P: Keeper, L: Life>(
    alloc: Global,
    ask: Ask,
    moment: u64,
    asks: &mut AskList,
    desk: &mut D,
    keep: &mut P,
    life: &mut L,
) -> Result<(), ChainEnd>
    requires known { CanBeAsked (D.parts desk.old) ask }
    requires alive { L.alive life.old ≡ true }
    ensures asked { AsksOnce (both_led (D.leads desk.old desk.new) (kept_by P.rows P.append_faults P.other_faults keep.old keep.new)) (L.allowances life.old) (L.allowances life.new) moment ask
        asks.old asks.new result }
    ensures cause { HasCause (L.deaths life.old) (L.deaths life.new) (has_died_following result) }
    ensures alive { L.alive life.new ≡ not (has_died_following result) }
    ensures parts { D.parts desk.new ≡ D.parts desk.old }
    ensures settled { D.settled desk.old ≡ true → has_died_following result ≡ false → D.settled desk.new ≡ true }
    ensures later { P.append_faults keep.old ≤ P.append_faults keep.new }
    ensures others { P.other_faults keep.new ≡ P.other_faults keep.old }
{
    match ask {
        Ask::Spool { vars, body } => match ask_spool(alloc, vars, body, asks, keep) {
            Ok(()) => Ok(()),
            Err(_) => Err(ChainEnd::Memory),
        },
        ask => ask_desk(alloc, ask, moment, asks, desk, life),
    }
}

// Makes an ask of a desk.
#[tactic(auto, using(crate::proofs::SpoolLemmas::part_of_desk))]
fn ask_desk<D: Desk, L: Life>(
    alloc: Global,
    ask: Ask,
    moment: u64,
    asks: &mut AskList,
    desk: &mut D,
    life: &mut L,
) -> Result<(), ChainEnd>
    requires known { IsOfPart (D.parts desk.old) ask }
    requires alive { L.alive life.old ≡ true }
    ensures asked { AsksOnce (D.leads desk.old desk.new) (L.allowances life.old) (L.allowances life.new) moment ask
        asks.old asks.new result }
    ensures cause { HasCause (L.deaths life.old) (L.deaths life.new) (has_died_following result) }
    ensures alive { L.alive life.new ≡ not (has_died_following result) }
    ensures parts { D.parts desk.new ≡ D.parts desk.old }
    ensures settled { D.settled desk.old ≡ true → has_died_following result ≡ false → D.settled desk.new ≡ true }
{
    match asks.make(alloc, desk, moment, ask, life) {
        Ok(()) => Ok(()),
        Err(fault) => Err(chain_end(fault)),
    }
}

// Asks the spool to put a task aside.
fn ask_spool<P: Keeper>(
    alloc: Global,
    vars: Vars,
    body: Bytes,
    asks: &mut AskList,
    keep: &mut P,
) -> Result<(), Memory>
    requires { IsSome (vars_block vars) }
    ensures { PutsAside (keeping P.rows P.append_faults P.other_faults keep.old) (keeping P.rows P.append_faults P.other_faults keep.new) vars body
        asks.old asks.new result }
{
    let row = row_of_task(alloc, &vars, body.as_slice())?;
    asks.open(vars, body)?;
    match put_row(alloc, row.as_slice(), keep) {
        Ok(answer) => {
            asks.answer_last(AskAnswer::Spool(answer));
            Ok(())
        }
        Err(memory) => {
            asks.cancel_last();
            Err(memory)
        }
    }
}

/// Makes a call of a cache, of the first one where none is named, and puts it with its answer at the end of the asks.
pub fn ask_cache<D: Desk, P: Keeper, L: Life>(
    alloc: Global,
    cache: Option<u32>,
    call: Call,
    moment: u64,
    asks: &mut AskList,
    desk: &mut D,
    keep: &mut P,
    life: &mut L,
) -> Result<(), ChainEnd>
    requires known { IsNumberBelow (D.parts desk.old).caches cache }
    requires alive { L.alive life.old ≡ true }
    ensures asked { AsksOnce (both_led (D.leads desk.old desk.new) (kept_by P.rows P.append_faults P.other_faults keep.old keep.new)) (L.allowances life.old) (L.allowances life.new) moment (cache_ask cache call)
        asks.old asks.new result }
    ensures cause { HasCause (L.deaths life.old) (L.deaths life.new) (has_died_following result) }
    ensures alive { L.alive life.new ≡ not (has_died_following result) }
    ensures parts { D.parts desk.new ≡ D.parts desk.old }
    ensures settled { D.settled desk.old ≡ true → has_died_following result ≡ false → D.settled desk.new ≡ true }
    ensures later { P.append_faults keep.old ≤ P.append_faults keep.new }
    ensures others { P.other_faults keep.new ≡ P.other_faults keep.old }
{
    let cache = cache.unwrap_or(0);
    ask(
        alloc,
        Ask::Cache { cache, call },
        moment,
        asks,
        desk,
        keep,
        life,
    )
}

// The end of a chain that a desk's fault is.
fn chain_end(fault: DeskFault) -> ChainEnd
    ensures { result ≡ end_of_fault fault }
{
    match fault {
        DeskFault::Died { whole } => ChainEnd::Died { whole },
        DeskFault::Memory => ChainEnd::Memory,
    }
}

/// The answer of the last ask.
pub fn last_answer(asks: &AskList) -> &AskAnswer
    requires { 0 < length asks.now }
    ensures { (front : List Asked) (asked : Asked) → asks.now ≡ front ++ asked ∷ [] → result.now ≡ asked.answer }
{
    let asks = asks.as_slice();
    &asks[asks.len() - 1].answer
}
