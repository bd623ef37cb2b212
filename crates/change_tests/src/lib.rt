//! Tests of joins, lists in chunks, operations and changes, through the public functions of their crates.
//!
//! A crate of tests alone: CI proves these tests over libraries that it has proved already, while tests inside a crate
//! would make it prove that crate twice.
#![tactic(auto)]

#[cfg(test)]
mod asserts;
#[cfg(test)]
mod changes;
#[cfg(test)]
mod chunks;
#[cfg(test)]
mod join_lists;
#[cfg(test)]
mod lattices;
#[cfg(test)]
mod operations;
