//! Tests of what every layer stands on, by its public calls: numbers, texts and lists; sources, sinks, clocks and lives;
//! packets and blocks; and keepers of rows.
#![tactic(auto)]

#[cfg(test)]
mod base;
#[cfg(test)]
mod keeper;
#[cfg(test)]
mod outside;
#[cfg(test)]
mod packet;
