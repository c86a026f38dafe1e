//! Tests of the desk over regions.
#![tactic(auto)]

#[cfg(test)]
mod deaths;
