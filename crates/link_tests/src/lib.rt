//! Tests of what serves connections, by its public calls: spawners, listeners, binders and the sinks of their
//! connections; and of what a wait leaves for the next read.
#![tactic(auto)]

#[cfg(test)]
mod links;
#[cfg(test)]
mod sockets;
#[cfg(test)]
mod waits;
