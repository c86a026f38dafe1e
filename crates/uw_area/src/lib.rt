//! A shared area as a region: each operation plans the words of its bytes and is then committed, so that whoever comes
//! after a death finds the old bytes or finishes the new ones.
#![tactic(auto)]

mod area;
mod blank;
mod bytes;
pub mod laws;
mod ops;
mod widths;

pub use area::Area;
