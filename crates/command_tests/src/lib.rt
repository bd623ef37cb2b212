//! Tests of the commands over memory: that each is answered, and what failing inputs, outputs and files do. What each
//! command prints is in `plays`. A crate of tests alone, as `record_tests` is.
#![tactic(auto)]

#[cfg(test)]
mod answers;
#[cfg(test)]
mod asserts;
#[cfg(test)]
mod broken_ends;
#[cfg(test)]
mod one_file;
#[cfg(test)]
mod program;
#[cfg(test)]
mod system_files;
