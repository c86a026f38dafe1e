// A request on its way through the rules.
ghost use Rattle.std.specs.Prelude.{◌≡◌};
ghost use Rattle.uw_chain.specs.Routing.{request_of};

use std::alloc::Global;
use uw_base::{Bytes, BytesList, Vars};

/// A request on its way through the rules: its variables, and of its reply the header lines, the body, and whether
/// something was sent.
#[derive(Drop)]
pub struct Request {
    pub vars: Vars,
    pub headers: BytesList,
    pub body: Bytes,
    pub sent: bool,
}

impl Request {
    /// A request before the first rule. Takes no memory.
    pub fn new(alloc: Global, vars: Vars) -> Request
        ensures { result ≡ request_of vars }
    {
        Request {
            vars,
            headers: BytesList::new(alloc),
            body: Bytes::new(alloc),
            sent: false,
        }
    }
}
