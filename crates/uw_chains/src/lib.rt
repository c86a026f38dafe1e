//! The hash chains of a region, by which an item is found by its key. Each call reads through an overlay, plans words into
//! it where it changes a chain, and takes no memory.
#![tactic(auto)]

mod chains;
pub mod laws;
mod search;

pub use chains::{link, unlink};
pub use search::find;
