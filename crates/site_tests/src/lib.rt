//! Tests of what a running site is made of (desks and windows, ledgers, journals, ports, guards, lines) and of the
//! recovery of journals, through the public functions of their crates. A crate of tests alone, as `record_tests` is.
#![tactic(auto)]

#[cfg(test)]
mod asserts;
#[cfg(test)]
mod guards;
#[cfg(test)]
mod journals;
#[cfg(test)]
mod ledgers;
#[cfg(test)]
mod lines;
#[cfg(test)]
mod ports;
#[cfg(test)]
mod records;
#[cfg(test)]
mod recoveries;
#[cfg(test)]
mod refused;
#[cfg(test)]
mod running;
#[cfg(test)]
mod talks;
#[cfg(test)]
mod threads;
#[cfg(test)]
mod watches;
