//! What the items of a region hold, and which of them are free. Each call that changes an item reads through an overlay
//! and plans words into it. No call but `key_of` and `value_of` takes memory.
#![tactic(auto)]

mod free;
pub mod laws;
mod records;

pub use free::{give_free, take_free};
pub use records::{Fields, fields_of, key_of, put_fields, put_key, put_value, value_of};
