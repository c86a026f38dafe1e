//! Rounds of a spooler: the tasks of the rows that a keeper has, run by rules of their own.
#![tactic(auto)]

pub mod laws;
pub mod report;
mod rounds;
mod tasks;
mod turns;

pub use report::{Outcome, RoundFault, RoundReport, TaskLine};
pub use rounds::{round, round_with};
