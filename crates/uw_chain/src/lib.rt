//! One request through the rules.
#![tactic(auto)]

mod acting;
mod answers;
pub mod asking;
mod endings;
pub mod faults;
mod filling;
mod judging;
pub mod laws;
pub mod outcome;
pub mod request;
mod routing;
pub mod searches;
mod spooling;
pub mod verdict;
mod wanting;

pub use asking::{ask, last_answer};
pub use faults::{ChainEnd, ChainFault, Routed, TaskEnd};
pub use outcome::{Ending, Finish, Outcome, RouteEnd};
pub use request::Request;
pub use routing::{route, route_with, run_task, run_task_with};
pub use searches::Searches;
pub use spooling::{put_task, task_of};
pub use verdict::Verdict;
