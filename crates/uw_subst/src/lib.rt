//! Templates: texts with captures and forms, read once and filled from variables, captures and a moment.
#![tactic(auto)]

mod dates;
mod filling;
mod forms;
pub mod laws;
mod parts;
mod reading;
mod template;

pub use reading::is_template;
pub use template::{Filled, SubstFault, Template};
