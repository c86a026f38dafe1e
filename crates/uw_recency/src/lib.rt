//! The recency list of a region: its items from the most recent one to the least recent one, linked both ways. Each call
//! reads through an overlay, plans words into it where it changes the list, and takes no memory.
#![tactic(auto)]

pub mod laws;
mod recency;

pub use recency::{last, newest, older, push_front, take_out, to_front};
