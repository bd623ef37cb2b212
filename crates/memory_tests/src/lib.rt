//! Tests in which each allocation fails in turn, by an allocator that refuses just one: what the call returns, what
//! state it leaves, and that the same call with enough memory then succeeds. A crate of tests alone, as `record_tests`
//! is.
#![tactic(auto)]

#[cfg(test)]
mod changes;
#[cfg(test)]
mod chunks;
#[cfg(test)]
mod footers;
#[cfg(test)]
mod join_lists;
#[cfg(test)]
mod lattices;
#[cfg(test)]
mod lines;
#[cfg(test)]
mod lookups;
#[cfg(test)]
mod operations;
#[cfg(test)]
mod replicas;
#[cfg(test)]
mod states;
#[cfg(test)]
mod turns;
#[cfg(test)]
mod values;
#[cfg(test)]
mod worlds;
