//! Tests of the region of a cache.
#![tactic(auto)]

#[cfg(test)]
mod calls;
#[cfg(test)]
mod cases;
#[cfg(test)]
mod entries;
#[cfg(test)]
mod regions;
#[cfg(test)]
mod small;
pub mod twins;
