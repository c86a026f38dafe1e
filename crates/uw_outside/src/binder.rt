// A binder, which makes the listener of a socket.
ghost use Rattle.std.specs.Prelude.{◌≡◌, ℕ, false, is_err, IfOk};
ghost use Rattle.uw_outside.specs.Faults.{HasCause};

use crate::listener::Listener;
use std::alloc::Global;

/// No listener was made for the socket.
#[derive(Clone, Copy, Debug, PartialEq, Eq)]
pub struct NotBound;

/// Makes listeners. It counts the sockets that it refused, and how often it has said of a listener that it is closed.
pub trait Binder {
    type Bound: Listener + Send + Drop + 'static;

    /// How many sockets were refused.
    ghost faults: { Self → ℕ };

    /// How many listeners were said to be closed, one as often as it was.
    ghost closings: { Self → ℕ };

    /// The listener of a socket, which is named as in a configuration: it has yet to accept, and to answer the close.
    fn bind(&mut self, alloc: Global, socket: &[u8]) -> Result<Self::Bound, NotBound>
        ensures open { IfOk result (λ bound. Self.Bound.closed bound ≡ false) }
        ensures cause { HasCause (faults self.old) (faults self.new) (is_err result) }
        ensures closings { closings self.new ≡ closings self.old };

    /// Whether the listener has answered the close.
    fn closed(&mut self, bound: &Self::Bound) -> bool
        ensures answer { result ≡ Self.Bound.closed bound.now }
        ensures cause { HasCause (closings self.old) (closings self.new) result }
        ensures faults { faults self.new ≡ faults self.old };
}
