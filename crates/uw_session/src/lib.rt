//! One request: from the bytes of its packet to the bytes of its reply.
#![tactic(auto)]

mod answering;
pub mod faults;
pub mod laws;
mod serving;
mod taking;

pub use answering::{Answered, answer_packet};
pub use faults::{Form, Refusal, ServeFault, Served};
pub use serving::{serve_one, serve_with};
