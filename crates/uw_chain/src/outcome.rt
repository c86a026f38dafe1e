// What comes of a rule.
use crate::request::Request;
use uw_base::Bytes;
use uw_reply::Reply;

/// How rules came to their end.
#[derive(Drop)]
pub enum Ending {
    /// Behind the last rule, or by `continue`.
    OfTable,
    /// With this status and the body so far; with none, with what was sent, or without a reply.
    Break(Option<Bytes>),
    /// With the status of a code.
    Page(u16),
    /// A text was longer than its limit, or a task could not be put aside.
    Failing,
    /// With the status of a task.
    Task(i64),
}

/// Rules that came to their end: how, and the request behind them.
#[derive(Drop)]
pub struct Finish {
    pub ending: Ending,
    pub request: Request,
}

/// A request that came to its end: its reply, and whether the reply's head alone is written.
#[derive(Drop)]
pub struct RouteEnd {
    pub reply: Reply,
    pub head_only: bool,
}

/// What comes of a rule.
#[derive(Drop)]
pub enum Outcome {
    /// The next rule follows.
    GoesOn(Request),
    /// The rule of this number follows, which is a later one.
    Jumps(u32, Request),
    /// The rules end.
    Ends(Ending, Request),
}
