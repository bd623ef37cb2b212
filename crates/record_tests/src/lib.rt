//! Tests of states, replicas, worlds, and the filter of a feed (what a record has already, and what a line adds to it),
//! through the public functions of their crates.
//!
//! A crate of tests alone: CI proves these tests over libraries that it has proved already, while tests inside a crate
//! would make it prove that crate twice.
#![tactic(auto)]

#[cfg(test)]
mod asserts;
#[cfg(test)]
mod bringing;
#[cfg(test)]
mod gatherings;
#[cfg(test)]
mod messages;
#[cfg(test)]
mod plain_replica;
#[cfg(test)]
mod recorded;
#[cfg(test)]
mod replicas;
#[cfg(test)]
mod sharing;
#[cfg(test)]
mod states;
#[cfg(test)]
mod worlds;
