//! Tests of a cache as a region.
#![tactic(auto)]

#[cfg(test)]
mod calls;
#[cfg(test)]
mod deaths;
#[cfg(test)]
mod many;
#[cfg(test)]
mod places;
