//! Tests of `ready_core` through its public functions: records with their expected verdicts, and a comparison of the
//! search with a slow plain program. A crate of tests alone, as `record_tests` is.
#![tactic(auto)]

#[cfg(test)]
mod plain;
#[cfg(test)]
mod reviews;
