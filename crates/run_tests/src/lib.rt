//! Tests of whole runs, by the program's top call: its words, its faults and their texts, the bytes that a run writes, and
//! the rows that it leaves.
#![tactic(auto)]

#[cfg(test)]
mod ends;
#[cfg(test)]
mod kept;
#[cfg(test)]
mod silence;
#[cfg(test)]
mod top;
