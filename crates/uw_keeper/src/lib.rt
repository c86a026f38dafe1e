//! Where tasks are kept: rows of bytes under rising numbers.
#![tactic(auto)]

pub mod folder;
pub mod keeper;
pub mod laws;
pub mod mem;

pub use folder::FolderKeeper;
pub use keeper::{KeepFault, Keeper, Row};
pub use mem::MemKeeper;
