//! Tests of the texts that the program reads and prints: footers, operations, snapshots, scripts and their output,
//! reports, changes between reports, states, and Gerrit's events, through the public functions of their crates. A crate
//! of tests alone, as `record_tests` is.
#![tactic(auto)]

#[cfg(test)]
mod asserts;
#[cfg(test)]
mod changes;
#[cfg(test)]
mod ends;
#[cfg(test)]
mod events;
#[cfg(test)]
mod feeds;
#[cfg(test)]
mod footers;
#[cfg(test)]
mod found;
#[cfg(test)]
mod operation_texts;
#[cfg(test)]
mod plays;
#[cfg(test)]
mod reports;
#[cfg(test)]
mod scripts;
#[cfg(test)]
mod sips;
#[cfg(test)]
mod snapshots;
#[cfg(test)]
mod states;
