//! Tests of a shared area on a region, beside the same area as plain bytes.
#![tactic(auto)]

#[cfg(test)]
mod cases;
#[cfg(test)]
mod deaths;
#[cfg(test)]
mod operations;
