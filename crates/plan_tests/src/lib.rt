//! Tests of the plan of a feed's queries, through the public functions of `query_plan`. A crate of tests alone, as
//! `record_tests` is.
#![tactic(auto)]

#[cfg(test)]
mod asserts;
#[cfg(test)]
mod calls;
#[cfg(test)]
mod refusals;
#[cfg(test)]
mod talks;
