//! The two ends of a run: which command the words of the command line say, and how a run ends, with its status and the
//! text of its fault.
#![tactic(auto)]

pub mod ends;
mod numbers;
mod parses;
mod texts;
mod words;

pub use ends::{BadPacket, Brief, BriefList, RunEnd, RunFault};
pub use texts::fault_text;
pub use words::{Command, WordsFault, read_words};
