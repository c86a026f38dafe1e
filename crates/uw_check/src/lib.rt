//! Every refused line of a configuration, for who writes one.
//!
//! `check_conf` tells a refused line, makes it empty and reads the text again, until it is taken. No line is told just
//! where `read_conf` takes the text, and the first one told is the one that it refuses. `report_on` says it in words:
//!
//! ```text
//! let text = b"[uwsgi]\nhttp = :8080\nworkers = 65\n";
//! let report = report_on(alloc, b"site.ini", text, &mut RegexPatterns::new(Vec::new(alloc)))?;
//! let told = report.text.as_slice();    // site.ini:2: UnknownOption: .., and site.ini:3: BadValue: ..
//! ```
#![tactic(auto)]

pub mod checked;
pub mod checking;
mod keys;
mod notes;
mod options;
mod parts;
pub mod reporting;
mod rules;
mod sentences;
mod site;
mod written;

pub use checked::{Checked, FaultList};
pub use checking::check_conf;
pub use reporting::{Report, report_on};
