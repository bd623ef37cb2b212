//! Tests of gate files, graphs, the chains that `why` prints, and Graphviz texts, through the public functions of their
//! crates. A crate of tests alone, as `record_tests` is.
#![tactic(auto)]

#[cfg(test)]
mod asserts;
#[cfg(test)]
mod chains;
#[cfg(test)]
mod gate_files;
#[cfg(test)]
mod graphs;
#[cfg(test)]
mod pictures;
#[cfg(test)]
mod record;
