//! The bitmap of a region: the least free run of blocks, and runs that are marked and unmarked.
#![tactic(auto)]

mod bits;
pub mod laws;
mod run;
mod search;

pub use run::{mark, unmark};
pub use search::first_run;
