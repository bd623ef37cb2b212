//! Tests of the routes of the page of a site, and of its server: over bytes in memory, and over sockets of this
//! machine. A crate of tests alone, as `record_tests` is.
#![tactic(auto)]

#[cfg(test)]
mod answers;
#[cfg(test)]
mod routes;
#[cfg(test)]
mod shelf;
#[cfg(test)]
mod sockets;
