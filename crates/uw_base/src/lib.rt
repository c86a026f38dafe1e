//! Bytes, lists of them and the want of memory: what every crate of the workspace speaks of.
#![tactic(auto)]

mod bytes;
mod lists;
pub mod numbers;
pub mod texts;
pub mod variables;

pub use bytes::{Bytes, Memory};
pub use lists::{BytesList, NumberList};
pub use numbers::{djb33x, put_decimal, put_signed, read_decimal, read_signed};
pub use variables::{Pair, Vars};
