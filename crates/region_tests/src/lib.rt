//! Tests of a region: its words and planned words, its redo record, its bitmap, its recency list, its hash chains and its
//! items, each by its public calls.
#![tactic(auto)]

#[cfg(test)]
mod bitmap;
#[cfg(test)]
mod chains;
#[cfg(test)]
mod intent;
#[cfg(test)]
mod items;
#[cfg(test)]
mod recency;
#[cfg(test)]
mod words;
