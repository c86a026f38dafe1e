// What a request asks of the site, and what it is answered.
use crate::{Answer, AreaAnswer, AreaOp, Call};
use uw_base::{Bytes, Vars};

/// What a request asks of the site.
#[derive(Drop)]
pub enum Ask {
    /// A call of the cache of a number, counted from 0.
    Cache { cache: u32, call: Call },
    /// An operation of the area of a number, counted from 0.
    Area { area: u32, op: AreaOp },
    /// A task that is put aside.
    Spool { vars: Vars, body: Bytes },
}

/// What the spool answers to a task that is put aside.
#[derive(Clone, Copy, Debug, PartialEq, Eq)]
pub enum SpoolAnswer {
    /// The task is the row of this number.
    Put { number: u64 },
    /// The last row has the last number.
    NoNumber,
    /// The row could not be kept.
    Failed,
}

/// The answer of an ask.
#[derive(Drop)]
pub enum AskAnswer {
    Cache(Answer),
    Area(AreaAnswer),
    Spool(SpoolAnswer),
}

/// An ask and its answer.
#[derive(Drop)]
pub struct Asked {
    pub ask: Ask,
    pub answer: AskAnswer,
}
