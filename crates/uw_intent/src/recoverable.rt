// Regions whose calls outlive a death.
ghost use Rattle.std.specs.Prelude.{◌≡◌, ◌==◌, ℕ, List, Option, true, false, not, is_ok, OnOk, OnErr};
ghost use Rattle.uw_outside.specs.Faults.{HasCause};
ghost use Rattle.uw_outside.specs.Lives.{IsSpent};
ghost use Rattle.uw_words.specs.Plans.{region};
ghost use Rattle.uw_intent.specs.declared.frame.WordWrite.{WordWrite};
ghost use Rattle.uw_intent.specs.Stores.{AllMade, SomeMade};
ghost use Rattle.uw_intent.specs.RedoRecord.{repairs};
ghost use Rattle.uw_intent.specs.Standing.{Kind, StandsFor};
ghost use Rattle.uw_intent.specs.RightWrites.{IsRight};
ghost use Rattle.uw_intent.specs.OneTurn.{IsCommitted, AnswersAs, LedByTurn, state_behind, end_of, has_call_died};

use std::alloc::Global;
use uw_outside::{Died, Life};

/// Why a call on a region was not answered.
#[derive(Clone, Copy, Debug, PartialEq, Eq)]
pub enum CallFault {
    /// The worker died in place of a word write. Where its call is whole, whoever looks next finds it made, else not.
    Died { whole: bool },
    /// No memory was left for the answer. No word was changed.
    Memory,
}

/// A region with its record: calls that are planned first and then written, and the repair of what a death has left. A
/// repair is pending while the gate is open.
pub trait Recoverable {
    /// What does not change about the region.
    type Conf;

    /// What its words stand for.
    type State;

    type Call;

    type Answer;

    ghost conf: { Self → Self.Conf };

    ghost kind: { Self.Conf → Kind Self.State Self.Call Self.Answer };

    ghost words: { Self → List ℕ };

    /// The writes of its last call, those of them that a death left unmade too.
    ghost todo: { Self → List WordWrite };

    /// Whether a repair is pending. Takes no memory.
    fn is_pending(&self) -> bool
        ensures { result ≡ not (region (words self.now) (kind (conf self.now)).frame.gate == 0) };

    /// Makes a call at a moment in seconds: all of its writes, or as many as the life lets through.
    fn call<L: Life>(
        &mut self,
        alloc: Global,
        moment: u64,
        call: &Self::Call,
        life: &mut L,
    ) -> Result<Self::Answer, CallFault>
        requires idle { region (words self.old) (kind (conf self.old)).frame.gate ≡ 0 }
        requires alive { L.alive life.old ≡ true }
        ensures right { (s : Self.State) → (kind (conf self.old)).agrees (words self.old) s
            → IsRight (kind (conf self.old)) (words self.old) s moment call.now ((kind (conf self.old)).answer s moment call.now) (todo self.new) }
        ensures writes { IsCommitted (kind (conf self.old)).frame (todo self.new) (words self.old) (words self.new)
            (L.allowances life.old) (L.allowances life.new) (end_of result) }
        ensures answer { (s : Self.State) → (kind (conf self.old)).agrees (words self.old) s
            → AnswersAs (kind (conf self.old)) s moment call.now (end_of result) }
        ensures stands { (s : Self.State) → (kind (conf self.old)).agrees (words self.old) s
            → StandsFor (kind (conf self.old)) (words self.new) (state_behind (kind (conf self.old)) s moment call.now (end_of result)) }
        ensures closed { has_call_died result ≡ false → region (words self.new) (kind (conf self.old)).frame.gate ≡ 0 }
        ensures conf { conf self.new ≡ conf self.old }
        ensures alive { L.alive life.new ≡ not (has_call_died result) }
        ensures cause { HasCause (L.deaths life.old) (L.deaths life.new) (has_call_died result) };

    /// Makes the writes that a death has left: all of them, or as many as the life lets through. Takes no memory.
    fn recover<L: Life>(&mut self, life: &mut L) -> Result<(), Died>
        requires alive { L.alive life.old ≡ true }
        ensures all { OnOk result (AllMade (repairs (kind (conf self.old)).frame (words self.old)) (words self.old) (words self.new)
            (L.allowances life.old) (L.allowances life.new)) }
        ensures part { OnErr result (SomeMade (repairs (kind (conf self.old)).frame (words self.old)) (words self.old) (words self.new)
            (L.allowances life.old) (L.allowances life.new)) }
        ensures stands { (s : Self.State) → StandsFor (kind (conf self.old)) (words self.old) s
            → StandsFor (kind (conf self.old)) (words self.new) s }
        ensures agrees { OnOk result ((s : Self.State) → StandsFor (kind (conf self.old)) (words self.old) s
            → (kind (conf self.old)).agrees (words self.new) s) }
        ensures closed { OnOk result (region (words self.new) (kind (conf self.old)).frame.gate ≡ 0) }
        ensures conf { conf self.new ≡ conf self.old }
        ensures alive { L.alive life.new ≡ is_ok result }
        ensures cause { HasCause (L.deaths life.old) (L.deaths life.new) (not (is_ok result)) };
}

/// Makes a call at a moment in seconds, behind the repair where one is pending. A death in the repair is not whole.
pub fn recovered_call<R: Recoverable, L: Life>(
    alloc: Global,
    held: &mut R,
    moment: u64,
    call: &R::Call,
    life: &mut L,
) -> Result<R::Answer, CallFault>
    requires alive { L.alive life.old ≡ true }
    ensures turn { LedByTurn (R.kind (R.conf held.old)) (R.words held.old) (R.words held.new)
        (L.allowances life.old) (L.allowances life.new) (record { who = 0; moment = moment; call = call.now }) (end_of result) }
    ensures closed { has_call_died result ≡ false → region (R.words held.new) (R.kind (R.conf held.old)).frame.gate ≡ 0 }
    ensures refused { has_call_died result ≡ true → IsSpent (L.allowances life.new) }
    ensures conf { R.conf held.new ≡ R.conf held.old }
    ensures alive { L.alive life.new ≡ not (has_call_died result) }
    ensures cause { HasCause (L.deaths life.old) (L.deaths life.new) (has_call_died result) }
{
    if held.is_pending() {
        if let Err(Died) = held.recover(life) {
            return Err(CallFault::Died { whole: false });
        }
    }
    held.call(alloc, moment, call, life)
}
