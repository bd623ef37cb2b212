//! Tests of `watch_core` through its public functions: histories with the expected verdicts after each part, and random
//! ones compared with evaluations of the whole record. A crate of tests alone, as `record_tests` is.
#![tactic(auto)]

#[cfg(test)]
mod asserts;
#[cfg(test)]
mod histories;
#[cfg(test)]
mod random;
#[cfg(test)]
mod refused;
