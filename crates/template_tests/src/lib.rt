//! Tests of texts that are filled, replies that are written out, and patterns, by their public calls.
#![tactic(auto)]

#[cfg(test)]
mod patterns;
#[cfg(test)]
mod reply;
#[cfg(test)]
mod subst;
