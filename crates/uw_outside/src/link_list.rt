// A listener over sources in memory.
ghost use Rattle.std.specs.Prelude.{◌≡◌, ◌+◌, ◌<◌, ◌∷◌, [], length, true, false, Some, IfOk, OnOk, OnErr};
ghost use Rattle.uw_outside.specs.Counts.{next_count};
ghost use Rattle.uw_outside.specs.Faults.{HasCause};
ghost use Rattle.uw_outside.specs.Links.{Accepts, AcceptsNext, Closes, has_closed, has_refused};

use crate::board::{BoardOut, Texts};
use crate::counts::count_fault;
use crate::listener::{Accepted, Listener};
use crate::source::BytesIn;
use std::alloc::{AllocError, Global};
use std::marker::Model;
use std::sync::{Arc, Mutex, Wait};

/// A listener with one connection for each of its sources, in their order. What goes to the other side of a connection
/// is appended to the text of the same place on a board.
#[derive(Drop)]
pub struct LinkList<R: Wait> {
    rt: R,
    // Those of the connections that are left, the last one first.
    sources: Vec<BytesIn>,
    // How many connections there are in all.
    count: usize,
    board: Arc<Mutex<Texts>>,
    closed: bool,
    faults: u64,
}

impl<R: Wait> Model for LinkList<R> {
    ghost use Rattle.std.specs.Prelude.{◌≡◌, ◌-◌, ◌≤◌, true, reverse, vec_len};
    ghost use Rattle.uw_outside.specs.Links.{Links};

    ghost Value = { Links };

    ghost view = { λ l. record {
      left = reverse l.sources.items;
      given = l.count - vec_len l.sources;
      closed = l.closed;
      faults = l.faults;
    } };

    ghost invariant = { λ l. (vec_len l.sources ≤ l.count) × (l.closed ≡ true → vec_len l.sources ≡ 0) };
}

impl<R: Wait> LinkList<R> {
    /// The listener of these sources. Takes no memory.
    pub fn new(rt: R, inputs: Vec<BytesIn>, board: Arc<Mutex<Texts>>) -> LinkList<R>
        ensures { result ≡ record { left = inputs.items; given = 0; closed = false; faults = 0 } }
    {
        let count = inputs.len();
        let mut sources = inputs;
        sources.reverse();
        LinkList {
            rt,
            sources,
            count,
            board,
            closed: false,
            faults: 0,
        }
    }

    // Whether it has answered the close.
    pub(crate) fn closed(&self) -> bool
        ensures { result ≡ self.now.closed }
    {
        self.closed
    }

    // The same, as if it had not been asked yet whether connections are left.
    pub(crate) fn opened(self) -> LinkList<R>
        ensures { result ≡ record self { closed = false } }
    {
        LinkList {
            closed: false,
            ..self
        }
    }
}

impl<R: Wait + Copy> LinkList<R> {
    // The ends of the next connection.
    fn link(&mut self) -> Result<(BytesIn, BoardOut<R>), AllocError>
        requires { 0 < length self.old.left }
        ensures source { IfOk result (λ ends. self.old.left ≡ ends.0 ∷ self.new.left) }
        ensures sink { IfOk result (λ ends. ends.1 ≡ record { place = self.old.given; faults = 0 }) }
        ensures given { OnOk result (self.new.given ≡ self.old.given + 1) }
        ensures closed { self.new.closed ≡ self.old.closed }
        ensures faults { self.new.faults ≡ self.old.faults }
        ensures err { OnErr result (self.new ≡ self.old) }
    {
        let board = Arc::try_clone(&self.board)?;
        let place = self.count - self.sources.len();
        let source = self.sources.pop().unwrap();
        Ok((source, BoardOut::new(self.rt, board, place)))
    }
}

impl<R: Wait + Copy + Send + Drop> Listener for LinkList<R> {
    type In = BytesIn;

    type Out = BoardOut<R>;

    ghost left = { λ l. Some (length l.left) };

    ghost closed = { λ l. l.closed };

    ghost faults = { λ l. l.faults };

    fn accept(&mut self, _alloc: Global) -> Accepted<BytesIn, BoardOut<R>>
        ensures left { Accepts (Some (length self.old.left)) (Some (length self.new.left)) result }
        ensures closed { Closes self.old.closed self.new.closed (has_closed result) }
        ensures cause { HasCause self.old.faults self.new.faults (has_refused result) }
        ensures next { AcceptsNext self.old self.new result }
    {
        if self.sources.is_empty() {
            self.closed = true;
            return Accepted::Closed;
        }
        match self.link() {
            Ok((source, sink)) => Accepted::Link(source, sink),
            Err(_) => {
                count_fault(&mut self.faults);
                Accepted::Failed
            }
        }
    }
}
