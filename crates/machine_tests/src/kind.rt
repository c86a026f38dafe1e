// The pair as a kind of region.
ghost use Rattle.std.specs.Prelude.{List, ℕ};
ghost use Rattle.uw_intent.specs.Standing.{IsLocal, StandsFor};
ghost use Rattle.uw_intent.specs.World.{World, Event, Step, IsFresh, RunsTo, state_of};
ghost use Rattle.machine_tests.specs.Pairs.{pair_kind};

use uw_intent::{RegionKind, laws};

/// The kind of region that two equal words are. No value of it is ever made.
pub struct Pairs;

impl RegionKind for Pairs {
    type State = u64;

    type Call = ();

    type Answer = u64;

    ghost kind = { pair_kind };
}

/// It is one: what agrees with a number depends on the words beyond the record alone.
pub fn pairs_are_a_kind()
    ensures { IsLocal pair_kind }
{}

/// After every list of events in a world of pairs, the words stand for the number that the bumps of the history leave.
pub fn every_world_of_pairs_stands()
    ensures { (w now : World (Unit {0}) ℕ) (events : List (Event (Unit {0}))) (steps : List (Step ℕ)) → IsFresh pair_kind 0 w
        → RunsTo pair_kind 0 w events steps now → StandsFor pair_kind now.words (state_of pair_kind 0 now.history) }
{
    pairs_are_a_kind();
    laws::every_world_stands::<Pairs>();
}
