// Texts that several threads write, and the sink that appends to one of them.
ghost use Rattle.std.specs.Prelude.{◌≡◌, ◌<◌, length, true, false, map, None, if◌then◌else◌};
ghost use Rattle.uw_outside.specs.BoardSteps.{AppendsAt};
ghost use Rattle.uw_outside.specs.Counts.{next_count};
ghost use Rattle.uw_outside.specs.Faults.{HasCause};
ghost use Rattle.uw_outside.specs.InMemory.{TakesAll};
ghost use Rattle.uw_outside.specs.Streams.{Writes, has_failed};

use crate::counts::count_fault;
use crate::sink::{Put, Sink};
use std::marker::Model;
use std::sync::{Arc, Mutex, Wait};

/// Texts, each named by its place.
pub type Texts = Vec<Vec<u8>>;

/// A sink that appends to the text of its place on a board, which the caller keeps behind a Mutex. Where the board has
/// no such text, or there is no memory, a write fails. It does not tell what it has taken, since others may write there
/// too: contracts see its place and the count of its failed writes.
#[derive(Drop)]
pub struct BoardOut<R: Wait> {
    rt: R,
    board: Arc<Mutex<Texts>>,
    place: usize,
    faults: u64,
}

impl<R: Wait> Model for BoardOut<R> {
    ghost use Rattle.uw_outside.specs.Links.{Posting};

    ghost Value = { Posting };

    ghost view = { λ s. record { place = s.place; faults = s.faults } };
}

impl<R: Wait> BoardOut<R> {
    pub(crate) fn new(rt: R, board: Arc<Mutex<Texts>>, place: usize) -> BoardOut<R>
        ensures { result ≡ record { place = place; faults = 0 } }
    {
        BoardOut {
            rt,
            board,
            place,
            faults: 0,
        }
    }
}

impl<R: Wait> Sink for BoardOut<R> {
    ghost taken = { λ _. None };

    ghost faults = { λ s. s.faults };

    fn write(&mut self, piece: &[u8]) -> Put
        requires { 0 < length piece.now }
        ensures bytes { Writes None None piece.now result }
        ensures cause { HasCause self.old.faults self.new.faults (has_failed result) }
        ensures all { TakesAll piece.now result }
        ensures place { self.new.place ≡ self.old.place }
        ensures faults { self.new.faults
            ≡ (if has_failed result then next_count self.old.faults else self.old.faults) }
    {
        let mut board = self.board.lock(&self.rt);
        if append_at(&mut board, self.place, piece) {
            return Put::Count(piece.len());
        }
        count_fault(&mut self.faults);
        Put::Failed
    }
}

// Appends a piece to the text at the place, unless there is none, or no memory.
fn append_at(texts: &mut Texts, place: usize, piece: &[u8]) -> bool
    ensures done { result ≡ true
        → AppendsAt (map (λ t. t.items) texts.old.items) (map (λ t. t.items) texts.new.items) place piece.now }
    ensures refused { result ≡ false → map (λ t. t.items) texts.new.items ≡ map (λ t. t.items) texts.old.items }
{
    match texts.get_mut(place) {
        Some(text) => text.extend_from_slice(piece).is_ok(),
        None => false,
    }
}
