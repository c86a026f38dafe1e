//! Tests of requests, commands and tasks, by the public calls that answer them: commands of a cache, requests and tasks
//! through rules, rounds of a spooler, and packets that are served.
#![tactic(auto)]

#[cfg(test)]
mod cachecmd;
#[cfg(test)]
mod chain;
#[cfg(test)]
mod session;
#[cfg(test)]
mod sites;
#[cfg(test)]
mod spool;
