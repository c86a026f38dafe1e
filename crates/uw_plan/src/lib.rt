//! The region of a cache: where its parts stand, which words of it agree with a list of entries, a region without an
//! entry, and for each call the words that are planned and the answer that is told.
#![tactic(auto)]

mod blank;
mod entries;
pub mod laws;
mod lookup;
mod near;
mod place;
mod plan;
mod policies;
mod put;
mod reads;
mod region;
mod removes;
mod room;
mod tells;
mod writes;

pub use blank::blank_region;
pub use entries::{add_entry, drop_entry};
pub use place::first_block;
pub use plan::{PlanAnswer, plan_call};
pub use region::{frame_of, shape_of};
pub use tells::told;
pub use uw_model::words_of;
