//! Tests of the lock, over a register of numbers and over a journal whose entries own their bytes.
#![tactic(auto)]

#[cfg(test)]
mod journal;
#[cfg(test)]
mod register;
