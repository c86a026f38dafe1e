// What routing answers.
ghost use Rattle.std.specs.Prelude.{◌≡◌};
ghost use Rattle.uw_chain.specs.declared.faults.ChainEnd.TheVariants as chains;

use uw_base::Memory;
use uw_model::AskList;
use uw_reply::Reply;

/// Why a request was not routed, or a task not run, to its end.
#[derive(Clone, Copy, Debug, PartialEq, Eq)]
pub enum ChainEnd {
    /// The worker died in an ask, which counts where it is whole.
    Died { whole: bool },
    /// No memory was left.
    Memory,
}

impl From<Memory> for ChainEnd {
    ghost from_gives = { λ _ end. end ≡ chains.Memory };

    fn from(_: Memory) -> ChainEnd {
        ChainEnd::Memory
    }
}

/// A request that was not routed, or a task that was not run, to its end, with its asks that were answered.
#[derive(Drop)]
pub struct ChainFault {
    pub end: ChainEnd,
    pub done: AskList,
}

/// A task that was run: its status, and its asks with their answers.
#[derive(Drop)]
pub struct TaskEnd {
    pub status: i64,
    pub asks: AskList,
}

/// A request that was routed: its reply, whether the reply's head alone is written, and its asks with their answers.
#[derive(Drop)]
pub struct Routed {
    pub reply: Reply,
    pub head_only: bool,
    pub asks: AskList,
}
