//! Tests of command lines: what their arguments ask for, where the program's output doesn't show it. What it shows, and
//! the texts of help and of usage errors, are in `plays`. A crate of tests alone, as `record_tests` is.
#![tactic(auto)]

#[cfg(test)]
mod commands;
#[cfg(test)]
mod feeds;
#[cfg(test)]
mod sites;
