//! Tests of `line_batches` through its public functions, and of snapshots and journals that are read by it: lines that
//! are read at once, beside the same read one by one. A crate of tests alone, as `record_tests` is.
#![tactic(auto)]

#[cfg(test)]
mod asserts;
#[cfg(test)]
mod batches;
#[cfg(test)]
mod effects;
#[cfg(test)]
mod texts;
