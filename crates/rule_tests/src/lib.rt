//! Tests of what an operator writes, by the public calls that read it: rules and the configuration.
#![tactic(auto)]

#[cfg(test)]
mod conf;
#[cfg(test)]
mod rules;
