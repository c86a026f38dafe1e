//! The top call: what the program does with its words, its configuration, its input, its output and its clock.
#![tactic(auto)]

mod configuration;
pub mod laws;
mod load;
mod pipe;
mod runs;
mod spool;

pub use pipe::serve_packets;
pub use runs::run;
pub use uw_ends::{BadPacket, Brief, BriefList, RunEnd, RunFault, fault_text};
