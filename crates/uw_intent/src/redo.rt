// The writes of a commit.
ghost use Rattle.std.specs.Prelude.{◌≡◌, ◌+◌, ◌-◌, ◌*◌, ◌^◌, ◌<◌, ◌≤◌, length, slice_index, true, not, is_ok, OnOk, OnErr};
ghost use Rattle.uw_outside.specs.Faults.{HasCause};
ghost use Rattle.uw_words.specs.Plans.{region};
ghost use Rattle.uw_intent.specs.Stores.{numbered, AllMade, SomeMade};
ghost use Rattle.uw_intent.specs.RedoRecord.{IsFrame, FitsRecord, IsIntact, commit_writes, runs_of};

use crate::{Frame, WordWrite};
use uw_outside::{Died, Life};
use uw_words::{Overlay, Ram};

// The words of the record for one planned word: its place, the length 1, and the word.
const RUN_WORDS: u64 = 3;

// The word of the record at this distance from its start.
fn record_word(plan: &Overlay, k: u64) -> u64
    requires { k < 3 * length plan.now.writes }
    ensures { result ≡ slice_index (runs_of plan.now.writes) k }
{
    let (at, word) = plan.nth(k / RUN_WORDS);
    match k % RUN_WORDS {
        0 => at,
        1 => 1,
        _ => word,
    }
}

/// The n-th write of a commit, counted from 1: the runs of the record and the used word, then the gate to 1, the planned
/// words at their places, and the gate to 0. An empty plan has none. `None` where there is no n-th. Takes no memory.
pub fn nth_write(frame: &Frame, plan: &Overlay, n: u64) -> Option<WordWrite>
    requires frame { IsFrame frame.now (2 ^ 64 - 1) }
    requires room { 3 * length plan.now.writes ≤ frame.now.room }
    ensures { result ≡ numbered (commit_writes frame.now plan.now.writes) n }
{
    let k = n.checked_sub(1)?;
    let count = plan.count();
    let record = RUN_WORDS * count;
    if count == 0 {
        return None;
    }
    if k < record {
        return Some(WordWrite {
            at: frame.start + k,
            word: record_word(plan, k),
        });
    }
    match k - record {
        0 => Some(WordWrite {
            at: frame.used,
            word: record,
        }),
        1 => Some(WordWrite {
            at: frame.gate,
            word: 1,
        }),
        later if later - 2 < count => {
            let (at, word) = plan.nth(later - 2);
            Some(WordWrite { at, word })
        }
        later if later - 2 == count => Some(WordWrite {
            at: frame.gate,
            word: 0,
        }),
        _ => None,
    }
}

/// Makes the writes of a commit one after the other, all of them or as many as the life lets through. Takes no memory.
pub fn commit<L: Life>(
    ram: &mut Ram,
    frame: &Frame,
    plan: &Overlay,
    life: &mut L,
) -> Result<(), Died>
    requires frame { IsFrame frame.now (length ram.old) }
    requires idle { region ram.old frame.now.gate ≡ 0 }
    requires fit { FitsRecord frame.now (length ram.old) plan.now.writes }
    requires alive { L.alive life.old ≡ true }
    ensures all { OnOk result (AllMade (commit_writes frame.now plan.now.writes) ram.old ram.new
        (L.allowances life.old) (L.allowances life.new)) }
    ensures part { OnErr result (SomeMade (commit_writes frame.now plan.now.writes) ram.old ram.new
        (L.allowances life.old) (L.allowances life.new)) }
    ensures intact { IsIntact frame.now ram.new }
    ensures alive { L.alive life.new ≡ is_ok result }
    ensures cause { HasCause (L.deaths life.old) (L.deaths life.new) (not (is_ok result)) }
{
    let len = ram.len();
    prove!(frame.start + frame.room <= len);
    let mut n = 1;
    while let Some(write) = nth_write(frame, plan, n) {
        ram.store(write.at, write.word, life)?;
        n += 1;
    }
    Ok(())
}
