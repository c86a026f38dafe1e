//! Replies to requests, and their bytes.
#![tactic(auto)]

pub mod laws;
pub mod reply;

pub use reply::{Reply, reply_bytes};
