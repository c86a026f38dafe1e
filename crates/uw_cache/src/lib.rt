//! A cache as a region of words, whose calls outlive a death at any word write.
//!
//! A `Vault` answers each call as the list of entries does for which its words stand. Its word writes are planned first, and
//! then made behind the redo record. Where a worker dies in place of one of them, the call is whole or it has not begun, as the
//! gate tells, and whoever comes next makes the repair before a call of its own: `uw_intent::recovered_call` does both.
#![tactic(auto)]

mod entries;
mod vault;

pub use entries::EntryList;
pub use vault::Vault;
