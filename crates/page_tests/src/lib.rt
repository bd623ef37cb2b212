//! Tests of the texts of pages, through the public functions of `markup_text` and `page_text`. A crate of tests alone,
//! as `record_tests` is.
#![tactic(auto)]

#[cfg(test)]
mod data;
#[cfg(test)]
mod drawings;
#[cfg(test)]
mod lists;
#[cfg(test)]
mod markup;
#[cfg(test)]
mod pages;
#[cfg(test)]
mod record;
