//! Tests of `walk_core` through its public functions: distances, cycles, orders and reachability, compared with slow
//! plain programs, and with each allocation failing in turn. A crate of tests alone, as `record_tests` is.
#![tactic(auto)]

#[cfg(test)]
mod cycles;
#[cfg(test)]
mod digraphs;
#[cfg(test)]
mod distances;
#[cfg(test)]
mod orders;
#[cfg(test)]
mod reaching;
#[cfg(test)]
mod refused;
