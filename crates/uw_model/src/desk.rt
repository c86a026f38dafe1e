// The desk, through which a request asks the caches and the areas.
ghost use Rattle.std.specs.Prelude.{◌≡◌, ◌+◌, ◌++◌, ◌<◌, Bool, true, false, not, List, [], ℕ};
ghost use Rattle.uw_outside.specs.Faults.{HasCause};
ghost use Rattle.uw_model.specs.declared.asks.Ask.TheVariants as asks;
ghost use Rattle.uw_model.specs.declared.asks.AskAnswer.TheVariants as ask_answers;
ghost use Rattle.uw_model.specs.Asks.{Asking, Calls, DeskParts, IsOfPart, has_died};

use crate::{Answer, AreaAnswer, AreaOp, Ask, AskAnswer, Call};
use std::alloc::Global;
use uw_outside::Life;

/// Why an ask was not answered.
#[derive(Clone, Copy, Debug, PartialEq, Eq)]
pub enum DeskFault {
    /// The worker died. Its ask is in the history of the cache or the area where it is whole, and else nowhere.
    Died { whole: bool },
    /// No memory was left. The ask is in no history.
    Memory,
}

/// The caches and the areas of a site, each numbered from 0, which a request asks one call after the other.
pub trait Desk {
    /// How many caches and how many areas it has. No call changes that.
    ghost parts: { Self → DeskParts };

    /// No cache and no area has an update pending that a dead worker left.
    ghost settled: { Self → Bool };

    /// These asks, each ended as it says, led from the one state to the other, and so many word writes were made for
    /// them, those of repairs among them.
    ghost leads: { Self → Self → List Asking → ℕ → Type 0 };

    /// Makes a call of the cache of a number, at a moment in seconds. Moments need not rise. Died only where the life
    /// refused a word write. Where there is no memory, nothing is changed.
    fn cache<L: Life>(
        &mut self,
        alloc: Global,
        cache: u32,
        moment: u64,
        call: &Call,
        life: &mut L,
    ) -> Result<Answer, DeskFault>
        requires known { cache < (parts self.old).caches }
        requires alive { L.alive life.old ≡ true }
        ensures asked { Calls (λ answer. ask_answers.Cache answer) (leads self.old self.new) (L.allowances life.old) (L.allowances life.new)
            moment (asks.Cache cache call.now) result }
        ensures cause { HasCause (L.deaths life.old) (L.deaths life.new) (has_died result) }
        ensures alive { L.alive life.new ≡ not (has_died result) }
        ensures parts { parts self.new ≡ parts self.old }
        ensures settled { settled self.old ≡ true → has_died result ≡ false → settled self.new ≡ true };

    /// Makes an operation of the area of a number. Died only where the life refused a word write. Where there is no
    /// memory, nothing is changed.
    fn area<L: Life>(
        &mut self,
        alloc: Global,
        area: u32,
        op: &AreaOp,
        life: &mut L,
    ) -> Result<AreaAnswer, DeskFault>
        requires known { area < (parts self.old).areas }
        requires alive { L.alive life.old ≡ true }
        ensures asked { (moment : ℕ) → Calls (λ answer. ask_answers.Area answer) (leads self.old self.new) (L.allowances life.old) (L.allowances life.new)
            moment (asks.Area area op.now) result }
        ensures cause { HasCause (L.deaths life.old) (L.deaths life.new) (has_died result) }
        ensures alive { L.alive life.new ≡ not (has_died result) }
        ensures parts { parts self.new ≡ parts self.old }
        ensures settled { settled self.old ≡ true → has_died result ≡ false → settled self.new ≡ true };

    /// No ask leads from a state to itself.
    ghost leads_none: { (desk : Self) → leads desk desk [] 0 };

    /// What led first, and then what led on from there.
    ghost leads_more: { (a b c : Self) (early late : List Asking) (first more : ℕ)
        → leads a b early first → leads b c late more → leads a c (early ++ late) (first + more) };
}

/// Makes an ask of a desk, at a moment in seconds, as the call of its kind does. One of the spool is none of a desk's.
pub fn make_ask<D: Desk, L: Life>(
    alloc: Global,
    desk: &mut D,
    moment: u64,
    ask: &Ask,
    life: &mut L,
) -> Result<AskAnswer, DeskFault>
    requires known { IsOfPart (D.parts desk.old) ask.now }
    requires alive { L.alive life.old ≡ true }
    ensures asked { Calls (λ answer. answer) (D.leads desk.old desk.new) (L.allowances life.old) (L.allowances life.new) moment ask.now result }
    ensures cause { HasCause (L.deaths life.old) (L.deaths life.new) (has_died result) }
    ensures alive { L.alive life.new ≡ not (has_died result) }
    ensures parts { D.parts desk.new ≡ D.parts desk.old }
    ensures settled { D.settled desk.old ≡ true → has_died result ≡ false → D.settled desk.new ≡ true }
{
    match ask {
        Ask::Cache { cache, call } => match desk.cache(alloc, *cache, moment, call, life) {
            Ok(answer) => Ok(AskAnswer::Cache(answer)),
            Err(fault) => Err(fault),
        },
        Ask::Area { area, op } => match desk.area(alloc, *area, op, life) {
            Ok(answer) => Ok(AskAnswer::Area(answer)),
            Err(fault) => Err(fault),
        },
        Ask::Spool { .. } => unreachable!(),
    }
}
