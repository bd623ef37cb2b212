//! Tests of the lines that hand items to Zuul, through the public functions of `enqueue_lines`.
//! A crate of tests alone, as `record_tests` is.
#![tactic(auto)]

#[cfg(test)]
mod files;
#[cfg(test)]
mod groups;
#[cfg(test)]
mod lines;
#[cfg(test)]
mod templates;
