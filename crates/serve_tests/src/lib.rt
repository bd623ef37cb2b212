//! Tests over sockets of this machine, of sites that are run within this process, of connections, and of lines that begin
//! with the time, through the public functions of their crates. A crate of tests alone, as `record_tests` is; what the
//! running program does is in `plays`.
#![tactic(auto)]

#[cfg(test)]
mod asserts;
#[cfg(test)]
mod connections;
#[cfg(test)]
mod served;
#[cfg(test)]
mod timed;
