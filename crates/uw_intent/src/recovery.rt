// The writes that finish what a record holds.
ghost use Rattle.std.specs.Prelude.{◌≡◌, ◌==◌, length, true, not, is_ok, OnOk, OnErr};
ghost use Rattle.uw_outside.specs.Faults.{HasCause};
ghost use Rattle.uw_words.specs.Plans.{region};
ghost use Rattle.uw_intent.specs.Stores.{numbered, AllMade, SomeMade};
ghost use Rattle.uw_intent.specs.RedoRecord.{IsFrame, IsIntact, applied, repairs};

use crate::cursor::Cursor;
use crate::{Frame, WordWrite};
use uw_outside::{Died, Life};
use uw_words::Ram;

/// Whether the gate is open: the record has writes that are left to be made. Takes no memory.
pub fn is_pending(ram: &Ram, frame: &Frame) -> bool
    requires { IsFrame frame.now (length ram.now) }
    ensures { result ≡ not (region ram.now frame.now.gate == 0) }
{
    ram.load(frame.gate) != 0
}

/// The n-th write of a recovery, counted from 1: none where the gate is closed, else the words of the runs at their
/// places, in order, and the gate to 0. `None` where there is no n-th. Takes no memory.
pub fn nth_repair(ram: &Ram, frame: &Frame, n: u64) -> Option<WordWrite>
    requires frame { IsFrame frame.now (length ram.now) }
    requires intact { IsIntact frame.now ram.now }
    ensures { result ≡ numbered (repairs frame.now ram.now) n }
{
    if n == 0 || !is_pending(ram, frame) {
        return None;
    }
    let mut cursor = Cursor::new(ram, frame);
    for _ in 1..n {
        cursor.step(ram)?;
    }
    Some(
        cursor.step(ram).unwrap_or(WordWrite {
            at: frame.gate,
            word: 0,
        }),
    )
}

/// Makes the writes that are left one after the other, all of them or as many as the life lets through. Takes no memory.
pub fn recover<L: Life>(ram: &mut Ram, frame: &Frame, life: &mut L) -> Result<(), Died>
    requires frame { IsFrame frame.now (length ram.old) }
    requires intact { IsIntact frame.now ram.old }
    requires alive { L.alive life.old ≡ true }
    ensures all { OnOk result (AllMade (repairs frame.now ram.old) ram.old ram.new
        (L.allowances life.old) (L.allowances life.new)) }
    ensures part { OnErr result (SomeMade (repairs frame.now ram.old) ram.old ram.new
        (L.allowances life.old) (L.allowances life.new)) }
    ensures intact { IsIntact frame.now ram.new }
    ensures same { applied frame.now ram.new ≡ applied frame.now ram.old }
    ensures alive { L.alive life.new ≡ is_ok result }
    ensures cause { HasCause (L.deaths life.old) (L.deaths life.new) (not (is_ok result)) }
{
    if !is_pending(ram, frame) {
        return Ok(());
    }
    let mut cursor = Cursor::new(ram, frame);
    while let Some(write) = cursor.step(ram) {
        ram.store(write.at, write.word, life)?;
    }
    ram.store(frame.gate, 0, life)
}
