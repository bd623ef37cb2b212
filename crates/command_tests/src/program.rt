//! The program, over arguments, inputs and files.

use super::asserts::assert_found;
use byte_ends::{Drain, Ends, Source};
use commands::run_words;
use console::Named;
use std::alloc::Global;
use std::process::Abort;

/// What the program wrote to standard output and standard error, and its exit status.
pub type Printed = (Vec<u8>, Vec<u8>, u8);

/// What the program prints for these words.
pub fn printed_by<I: Source, N: Named>(
    alloc: Global,
    words: &[&str],
    input: &mut I,
    files: &mut N,
) -> Printed {
    let mut output = Ends::new(Vec::new(alloc));
    let mut errors = Ends::new(Vec::new(alloc));
    let status = run_words(alloc, words, input, &mut output, &mut errors, files);
    (output.into_inner(), errors.into_inner(), status)
}

/// What the program wrote to standard error, and its exit status.
pub type Reported = (Vec<u8>, u8);

/// What the program reports for these words to an output.
pub fn reported_by<I: Source, O: Drain, N: Named>(
    alloc: Global,
    words: &[&str],
    input: &mut I,
    output: &mut O,
    files: &mut N,
) -> Reported {
    let mut errors = Ends::new(Vec::new(alloc));
    let status = run_words(alloc, words, input, output, &mut errors, files);
    (errors.into_inner(), status)
}

/// The program reported this, and ended with this status.
pub fn assert_reported(rt: &impl Abort, reported: &Reported, errors: &str, status: u8) {
    let found = (reported.0.as_slice(), reported.1);
    assert_found(rt, found, (errors.as_bytes(), status));
}
