//! Tests of feeds of sites, over memory, through the public functions of their crates. A crate of tests alone, as
//! `record_tests` is; feeds of running sites are in `plays/feeds.play`.
#![tactic(auto)]

#[cfg(test)]
mod asserts;
#[cfg(test)]
mod feeds;
