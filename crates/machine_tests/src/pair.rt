// Two words that are equal.
ghost use Rattle.std.specs.Prelude.{◌≡◌, ℕ, ◌∷◌, [], length, true, IfOk, OnOk, is_ok};
ghost use Rattle.uw_words.specs.Plans.{region};
ghost use Rattle.uw_intent.specs.RedoRecord.{IsIntact, commit_writes};
ghost use Rattle.uw_intent.specs.Standing.{StandsFor};
ghost use Rattle.uw_intent.specs.CallTurns.{CallMade};
ghost use Rattle.machine_tests.specs.Pairs.{ArePair, bumped, pair_kind, bump_end, number_after, IsStanding};

use uw_intent::{Frame, commit, is_pending, recover};
use uw_outside::{Died, Life};
use uw_words::{Overlay, Ram};

/// Where the record of the region stands: it has room for two planned words. The pair stands behind it.
pub const FRAME: Frame = Frame {
    gate: 10,
    used: 11,
    start: 12,
    room: 6,
};

const LEFT: u64 = 18;

const RIGHT: u64 = 19;

/// A death in a bump: whether both words are one more for whoever looks next, or both as they were.
#[derive(Clone, Copy, Debug, PartialEq, Eq)]
pub struct Broken {
    pub whole: bool,
}

// Plans one more for both words.
fn plan_bump(ram: &Ram, plan: &mut Overlay) -> u64
    requires words { length ram.now ≡ 20 }
    requires room { plan.old.room ≡ 2 }
    ensures number { result ≡ bumped (region ram.now 18) }
    ensures planned { plan.new.writes ≡ (18, result) ∷ (19, result) ∷ [] }
    ensures room { plan.new.room ≡ 2 }
{
    let number = ram.load(LEFT).wrapping_add(1);
    plan.clear();
    plan.put(LEFT, number);
    plan.put(RIGHT, number);
    number
}

/// Makes both words one more, and gives their number; or dies in place of a word write.
pub fn bump<L: Life>(ram: &mut Ram, plan: &mut Overlay, life: &mut L) -> Result<u64, Broken>
    requires pair { (number : ℕ) × ArePair ram.old number }
    requires room { plan.old.room ≡ 2 }
    requires alive { L.alive life.old ≡ true }
    ensures made { (number : ℕ) → ArePair ram.old number → CallMade pair_kind number ram.old ram.new
        (L.allowances life.old) (L.allowances life.new) 0 tt (commit_writes FRAME plan.new.writes) (bump_end result) }
    ensures stands { (number : ℕ) → ArePair ram.old number → StandsFor pair_kind ram.new (number_after number result) }
    ensures standing { IsStanding ram.new }
    ensures room { plan.new.room ≡ 2 }
    ensures alive { L.alive life.new ≡ is_ok result }
{
    let number = plan_bump(ram, plan);
    match commit(ram, &FRAME, plan, life) {
        Ok(()) => Ok(number),
        Err(Died) => Err(Broken {
            whole: is_pending(ram, &FRAME),
        }),
    }
}

/// Makes the writes that a death has left, or dies in place of one of them.
pub fn mend<L: Life>(ram: &mut Ram, life: &mut L) -> Result<(), Died>
    requires standing { IsStanding ram.old }
    requires alive { L.alive life.old ≡ true }
    ensures stands { (number : ℕ) → StandsFor pair_kind ram.old number → StandsFor pair_kind ram.new number }
    ensures standing { IsStanding ram.new }
    ensures settled { OnOk result ((number : ℕ) → StandsFor pair_kind ram.old number → ArePair ram.new number) }
    ensures alive { L.alive life.new ≡ is_ok result }
{
    recover(ram, &FRAME, life)
}
