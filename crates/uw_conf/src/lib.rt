//! The configuration: what a text of options and rules says, or its least refused line.
#![tactic(auto)]

mod areas;
mod caches;
pub mod conf;
mod deciding;
mod draft;
pub mod laws;
mod lines;
mod options;
mod reading;
mod refusal;
mod sizes;
mod values;

pub use conf::{Conf, ConfError, ConfFault, ConfKind, Options};
pub use deciding::read_conf;
