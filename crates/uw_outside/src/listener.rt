// A listener, which accepts connections.
ghost use Rattle.std.specs.Prelude.{ℕ, Bool, Option};
ghost use Rattle.uw_outside.specs.Faults.{HasCause};
ghost use Rattle.uw_outside.specs.Links.{Accepts, Closes, has_closed, has_refused};

use crate::sink::Sink;
use crate::source::Source;
use std::alloc::Global;

/// What an accept answers.
#[derive(Drop)]
pub enum Accepted<I, O> {
    /// The two ends of one connection: what comes from its other side, and what goes there.
    Link(I, O),
    /// No connection comes any more, and every later accept answers this too.
    Closed,
    /// The accept failed, or there was no memory for it.
    Failed,
}

/// Accepts one connection after the other, and counts the accepts that fail.
pub trait Listener {
    type In: Source + Send + Drop;

    type Out: Sink + Send + Drop;

    /// How many connections are left, where it tells. Whether it tells, no call changes.
    ghost left: { Self → Option ℕ };

    /// Whether it has answered the close.
    ghost closed: { Self → Bool };

    /// How many accepts have failed.
    ghost faults: { Self → ℕ };

    /// The next connection, for which it may wait.
    fn accept(&mut self, alloc: Global) -> Accepted<Self::In, Self::Out>
        ensures left { Accepts (left self.old) (left self.new) result }
        ensures closed { Closes (closed self.old) (closed self.new) (has_closed result) }
        ensures cause { HasCause (faults self.old) (faults self.new) (has_refused result) };
}
