//! Tests of caches, areas and desks, by the calls of their plain forms, and of the words of their regions.
#![tactic(auto)]

#[cfg(test)]
mod areas;
#[cfg(test)]
mod caches;
#[cfg(test)]
mod desks;
#[cfg(test)]
mod layout;
#[cfg(test)]
mod reckoning;
