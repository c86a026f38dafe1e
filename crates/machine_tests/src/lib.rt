//! A region of two words that a call keeps equal: the smallest kind of region, with what each death in a call and in a
//! repair leaves of it.
#![tactic(auto)]

mod kind;
mod pair;
#[cfg(test)]
mod tests;

pub use kind::{Pairs, every_world_of_pairs_stands, pairs_are_a_kind};
pub use pair::{Broken, FRAME, bump, mend};
