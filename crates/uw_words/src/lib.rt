//! Words of a region: memory whose words are stored one by one as long as a life lets them, and planned words that are
//! read in place of the region's.
#![tactic(auto)]

pub mod laws;
mod overlay;
mod ram;
mod shape;
mod sieve;
mod slots;
mod texts;

pub use overlay::Overlay;
pub use ram::Ram;
pub use shape::{ITEM_HEAD, Shape};
pub use texts::{first_word, put_text, text_at};
