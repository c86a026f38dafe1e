//! Laws of the record, over all words and plans. Each is the contract of a function that does nothing.
ghost use Rattle.std.specs.Prelude.{◌≡◌, ◌≢◌, ◌⊎◌, ◌+◌, ◌*◌, ◌<◌, ◌≤◌, None, Option, ℕ, Bool, false, List, ◌++◌, map, count_by, take, length, if◌then◌else◌};
ghost use Rattle.uw_words.specs.Plans.{region, through, planned, HasDistinctPlaces};
ghost use Rattle.uw_intent.specs.declared.frame.Frame.{Frame};
ghost use Rattle.uw_intent.specs.declared.frame.WordWrite.{WordWrite};
ghost use Rattle.uw_intent.specs.Stores.{words_after, AllMade, SomeMade};
ghost use Rattle.uw_intent.specs.RedoRecord.{IsFrame, FitsRecord, IsBeyond, IsIntact, StandsAs, commit_writes, copies, repairs, applied};
ghost use Rattle.uw_intent.specs.Standing.{IsLocal, StandsFor};
ghost use Rattle.uw_intent.specs.RightWrites.{IsRight, has_opened};
ghost use Rattle.uw_intent.specs.World.{World, Called, Event, Step, Lock, dying, left_dead, repairing, calling, held, free, state_of, IsUnheld, IsAllowed};
ghost use Rattle.uw_intent.specs.World.{HasRightWrites, Happens};
ghost use Rattle.uw_intent.specs.World.{RunsTo, IsFresh, IsUnderWay, ended, takes_of, joined_of, AreAnswers};
ghost use Rattle.uw_intent.specs.CallTurns.{CallEnd, died, CallMade, IsCallTurn};

use crate::RegionKind;

/// After each of the writes of a recovery the words are intact.
pub fn recovery_keeps_words_intact()
    ensures { (frame : Frame) (words : List ℕ) (k : ℕ) → IsFrame frame (length words) → IsIntact frame words
        → IsIntact frame (words_after (take k (repairs frame words)) words) }
{}

/// After each of the writes of a recovery the words stand for what they stood for before.
pub fn recovery_keeps_what_words_stand_for()
    ensures { (frame : Frame) (words : List ℕ) (k : ℕ) → IsFrame frame (length words) → IsIntact frame words
        → applied frame (words_after (take k (repairs frame words)) words) ≡ applied frame words }
{}

/// After all writes of a recovery the gate is closed.
pub fn whole_recovery_closes_the_gate()
    ensures { (frame : Frame) (words : List ℕ) → IsFrame frame (length words) → IsIntact frame words
        → region (words_after (repairs frame words) words) frame.gate ≡ 0 }
{}

/// After each of the writes of a commit the words are intact.
pub fn commit_keeps_words_intact()
    ensures { (frame : Frame) (words : List ℕ) (plan : List (ℕ × ℕ)) (k : ℕ) → IsFrame frame (length words)
        → region words frame.gate ≡ 0 → FitsRecord frame (length words) plan
        → IsIntact frame (words_after (take k (commit_writes frame plan)) words) }
{}

/// Before the gate has opened, the words stand for the old ones.
pub fn unopened_commit_stands_for_old_words()
    ensures { (frame : Frame) (words : List ℕ) (plan : List (ℕ × ℕ)) (k : ℕ) → IsFrame frame (length words)
        → region words frame.gate ≡ 0 → FitsRecord frame (length words) plan → k ≤ 3 * length plan + 1
        → StandsAs frame (words_after (take k (commit_writes frame plan)) words) (region words) }
{}

/// Before the gate has opened, only the record and the used word differ from the old words.
pub fn unopened_commit_changes_the_record_only()
    ensures { (frame : Frame) (words : List ℕ) (plan : List (ℕ × ℕ)) (k : ℕ) → IsFrame frame (length words)
        → region words frame.gate ≡ 0 → FitsRecord frame (length words) plan → k ≤ 3 * length plan + 1
        → (at : ℕ) → (at < frame.start) ⊎ (frame.start + frame.room ≤ at) → at ≢ frame.used
        → region (words_after (take k (commit_writes frame plan)) words) at ≡ region words at }
{}

/// From the write that opens the gate on, the words stand for the planned ones.
pub fn opened_commit_stands_for_planned_words()
    ensures { (frame : Frame) (words : List ℕ) (plan : List (ℕ × ℕ)) (k : ℕ) → IsFrame frame (length words)
        → region words frame.gate ≡ 0 → FitsRecord frame (length words) plan → HasDistinctPlaces plan
        → 3 * length plan + 1 < k
        → StandsAs frame (words_after (take k (commit_writes frame plan)) words) (through plan (region words)) }
{}

/// After each of the writes of a commit only planned places differ from the old words, beyond the record.
pub fn commit_changes_planned_places_only()
    ensures { (frame : Frame) (words : List ℕ) (plan : List (ℕ × ℕ)) (k : ℕ) → IsFrame frame (length words)
        → region words frame.gate ≡ 0 → FitsRecord frame (length words) plan
        → (at : ℕ) → IsBeyond frame at → planned plan at ≡ None
        → region (words_after (take k (commit_writes frame plan)) words) at ≡ region words at }
{}

/// After all writes of a commit the gate is closed.
pub fn whole_commit_closes_the_gate()
    ensures { (frame : Frame) (words : List ℕ) (plan : List (ℕ × ℕ)) → IsFrame frame (length words)
        → region words frame.gate ≡ 0 → FitsRecord frame (length words) plan
        → region (words_after (commit_writes frame plan) words) frame.gate ≡ 0 }
{}

/// After all writes of a commit the words are the planned ones, beyond the record.
pub fn whole_commit_leaves_planned_words()
    ensures { (frame : Frame) (words : List ℕ) (plan : List (ℕ × ℕ)) → IsFrame frame (length words)
        → region words frame.gate ≡ 0 → FitsRecord frame (length words) plan → HasDistinctPlaces plan
        → (at : ℕ) → IsBeyond frame at
        → region (words_after (commit_writes frame plan) words) at ≡ through plan (region words) at }
{}

/// Writes leave the number of words.
pub fn writes_keep_the_number_of_words()
    ensures { (writes : List WordWrite) (words : List ℕ) → length (words_after writes words) ≡ length words }
{}

/// While the writes of a right list are made, the words stand for the next state once the gate's write was made, and for
/// the state before until then.
pub fn right_writes_stand<K: RegionKind>()
    ensures { (words : List ℕ) (s : K.State) (moment : ℕ) (call : K.Call) (answer : K.Answer) (todo : List WordWrite) (j : ℕ) → IsLocal K.kind
        → K.kind.agrees words s → IsRight K.kind words s moment call answer todo
        → StandsFor K.kind (words_after (take j todo) words) (if has_opened K.kind.frame (take j todo) then K.kind.next s moment call else s) }
{}

/// While a write of a right list is left, the gate is open exactly where the write that opens it was made.
pub fn the_gate_tells_what_the_words_stand_for<K: RegionKind>()
    ensures { (words : List ℕ) (s : K.State) (moment : ℕ) (call : K.Call) (answer : K.Answer) (todo : List WordWrite) (j : ℕ) → IsLocal K.kind
        → K.kind.agrees words s → IsRight K.kind words s moment call answer todo → j < length todo
        → region (words_after (take j todo) words) K.kind.frame.gate ≡ (if has_opened K.kind.frame (take j todo) then 1 else 0) }
{}

/// After all writes of a right list the words agree with the next state.
pub fn right_writes_agree<K: RegionKind>()
    ensures { (words : List ℕ) (s : K.State) (moment : ℕ) (call : K.Call) (answer : K.Answer) (todo : List WordWrite) → IsLocal K.kind
        → K.kind.agrees words s → IsRight K.kind words s moment call answer todo
        → K.kind.agrees (words_after todo words) (K.kind.next s moment call) }
{}

/// The writes of a commit are right for a call where the words, with the planned ones at their places, agree with the
/// next state, and the writes are not too many.
pub fn commit_is_right<K: RegionKind>()
    ensures { (words : List ℕ) (s : K.State) (moment : ℕ) (call : K.Call) (plan : List (ℕ × ℕ)) → IsLocal K.kind → K.kind.agrees words s
        → FitsRecord K.kind.frame (length words) plan → HasDistinctPlaces plan → K.kind.agrees (words_after (copies plan) words) (K.kind.next s moment call)
        → length (commit_writes K.kind.frame plan) ≤ K.kind.most s moment call
        → IsRight K.kind words s moment call (K.kind.answer s moment call) (commit_writes K.kind.frame plan) }
{}

/// After the planned words were put at their places, each place has what is read through the plan.
pub fn planned_words_are_read_through_the_plan()
    ensures { (frame : Frame) (words : List ℕ) (plan : List (ℕ × ℕ)) (at : ℕ) → FitsRecord frame (length words) plan → HasDistinctPlaces plan
        → region (words_after (copies plan) words) at ≡ through plan (region words) at }
{}

/// After every list of events the words stand for the state of the history.
pub fn every_world_stands<K: RegionKind>()
    ensures { (start : K.State) (w now : World K.Call K.Answer) (events : List (Event K.Call)) (steps : List (Step K.Answer)) → IsLocal K.kind
        → IsFresh K.kind start w → RunsTo K.kind start w events steps now → StandsFor K.kind now.words (state_of K.kind start now.history) }
{}

/// Where the lock is free after a list of events, the words agree with the state of the history.
pub fn free_worlds_agree<K: RegionKind>()
    ensures { (start : K.State) (w now : World K.Call K.Answer) (events : List (Event K.Call)) (steps : List (Step K.Answer)) → IsLocal K.kind
        → IsFresh K.kind start w → RunsTo K.kind start w events steps now → now.lock ≡ free → K.kind.agrees now.words (state_of K.kind start now.history) }
{}

/// The history after a list of events is the calls of the takes that ended in a leave, or in a death that says that the
/// call is whole, in the order of the takes, and behind them the holder's call where the write that opens its gate was made.
pub fn history_is_of_ended_calls<K: RegionKind>()
    ensures { (start : K.State) (w now : World K.Call K.Answer) (events : List (Event K.Call)) (steps : List (Step K.Answer)) → IsFresh K.kind start w
        → RunsTo K.kind start w events steps now → now.history ≡ map (λ e. e.made) (ended None events steps) ++ joined_of now.lock }
{}

/// The call of each take is in the history at most once: of the calls that pass any test, it has no more than the takes.
pub fn takes_join_once<K: RegionKind>()
    ensures { (start : K.State) (w now : World K.Call K.Answer) (events : List (Event K.Call)) (steps : List (Step K.Answer)) → IsFresh K.kind start w
        → RunsTo K.kind start w events steps now → (p : Called K.Call → Bool) → count_by p now.history ≤ count_by p (takes_of events) }
{}

/// Each answer of a leave is the one of the state that the calls before its call in the history leave.
pub fn answers_are_of_their_places<K: RegionKind>()
    ensures { (start : K.State) (w now : World K.Call K.Answer) (events : List (Event K.Call)) (steps : List (Step K.Answer)) → IsLocal K.kind
        → IsFresh K.kind start w → RunsTo K.kind start w events steps now → AreAnswers K.kind start (ended None events steps) }
{}

/// A call for which the lock is held after a list of events has joined the history exactly where one of its writes that
/// are done opened the gate.
pub fn calls_join_by_the_gate<K: RegionKind>()
    ensures { (start : K.State) (w now : World K.Call K.Answer) (events : List (Event K.Call)) (steps : List (Step K.Answer)) → IsLocal K.kind
        → IsFresh K.kind start w → RunsTo K.kind start w events steps now
        → (made : Called K.Call) (answer : K.Answer) (todo : List WordWrite) (joined : Bool) → now.lock ≡ held made (calling answer todo joined)
        → IsUnderWay K.kind start now made answer todo joined }
{}

/// A death in a repair is not whole, and changes neither words nor history.
pub fn a_death_in_a_repair_changes_nothing<K: RegionKind>()
    ensures { (start : K.State) (w now : World K.Call K.Answer) (made : Called K.Call) (todo : List WordWrite) (who : ℕ) (step : Step K.Answer)
        → w.lock ≡ held made (repairing todo) → Happens K.kind start w (dying who) step now
        → (step ≡ left_dead false) × (now.words ≡ w.words) × (now.history ≡ w.history) }
{}

/// A call behind all writes of the repair is a turn in the world: the lock is taken, and just so many writes are made as the
/// life let through, of the repair and of the call.
pub fn calls_are_turns<K: RegionKind>()
    ensures { (start : K.State) (w : World K.Call K.Answer) (made : Called K.Call) (before now : List ℕ) (told mid left : Option (List ℕ))
        (todo : List WordWrite) (end : CallEnd K.Answer) → IsUnheld w.lock → AllMade (repairs K.kind.frame w.words) w.words before told mid
        → CallMade K.kind (state_of K.kind start w.history) before now mid left made.moment made.call todo end
        → IsCallTurn K.kind start w made now told left end }
{}

/// A death in the repair before a call is a turn in the world, of which the call is not whole.
pub fn broken_repairs_are_turns<K: RegionKind>()
    ensures { (start : K.State) (w : World K.Call K.Answer) (made : Called K.Call) (now : List ℕ) (told left : Option (List ℕ)) → IsUnheld w.lock
        → SomeMade (repairs K.kind.frame w.words) w.words now told left → IsCallTurn K.kind start w made now told left (died false) }
{}

/// An event that happens is allowed by the lock.
pub fn events_happen_where_allowed<K: RegionKind>()
    ensures { (start : K.State) (w now : World K.Call K.Answer) (event : Event K.Call) (step : Step K.Answer) → Happens K.kind start w event step now
        → IsAllowed w.lock event }
{}

/// After every list of events each event that the lock allows happens, where each call has writes that are right.
pub fn allowed_events_happen<K: RegionKind>()
    ensures { (start : K.State) (w now : World K.Call K.Answer) (events : List (Event K.Call)) (steps : List (Step K.Answer)) → IsLocal K.kind
        → HasRightWrites K.kind → IsFresh K.kind start w → RunsTo K.kind start w events steps now → (event : Event K.Call) → IsAllowed now.lock event
        → (step : Step K.Answer) × (after : World K.Call K.Answer) × Happens K.kind start now event step after }
{}
