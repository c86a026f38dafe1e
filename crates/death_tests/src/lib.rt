//! Tests of the machine of `pipe` over a desk whose worker dies: the frame of a death, its brief, and the packet behind it.
#![tactic(auto)]

#[cfg(test)]
mod deaths;
#[cfg(test)]
mod mortal;
