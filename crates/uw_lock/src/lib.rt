//! A lock that tells of the death of its last holder. Under it lies a value that stands for one history of the calls
//! made so far. A thread takes the lock with a pass, which knows the history that it has seen and its own entries in it.
#![tactic(auto)]

mod entries;
mod kept;
mod lock;
mod pass;
mod rule;
mod turn;

pub use entries::{Made, View};
pub use kept::Kept;
pub use lock::RobustLock;
pub use pass::Pass;
pub use turn::Turn;
