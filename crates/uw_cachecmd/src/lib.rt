//! Commands of a cache as packets carry them, and the replies to them.
#![tactic(auto)]

pub mod commands;
pub mod reply;

pub use commands::{CmdFault, command};
pub use reply::{cache_reply, fault_reply, put_in_twenty_digits, spool_reply};
