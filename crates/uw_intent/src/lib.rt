//! The redo record of a region: planned words are first laid into it and then copied to their places, so that whoever
//! comes after a death, at whatever word write, finds the old words or finishes the new ones.
#![tactic(auto)]

mod cursor;
mod frame;
mod kind;
pub mod laws;
mod recoverable;
mod recovery;
mod redo;

pub use frame::{Frame, WordWrite};
pub use kind::RegionKind;
pub use recoverable::{CallFault, Recoverable, recovered_call};
pub use recovery::{is_pending, nth_repair, recover};
pub use redo::{commit, nth_write};
