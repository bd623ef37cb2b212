//! The result of parsing a line.

use super::finding::Finding;
use super::part::Part;
use std::marker::Model;

/// The kind of a line within Gerrit's output, and its findings, in order.
#[derive(Debug, Drop)]
pub struct ParsedLine {
    pub part: Part,
    pub findings: Vec<Finding>,
}

impl Model for ParsedLine {
    ghost use Rattle.gerrit_events.specs.Reading.{ParsedLine};

    ghost Value = { ParsedLine };

    ghost view = { λ parsed. record { part = parsed.part; findings = parsed.findings.items } };
}
