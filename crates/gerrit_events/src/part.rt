//! The parts of Gerrit's output.

/// An event, or a part of the answer to a query.
#[derive(Clone, Copy, Debug, PartialEq, Eq)]
pub enum Part {
    /// Neither: the line is no JSON object, or its `type` is no text.
    Nothing,
    /// An event, with the number of its change, if it has one.
    Event(Option<u32>),
    /// A row of an answer, with the number of its change, if it has one.
    Row(Option<u32>),
    /// The end of an answer, and whether Gerrit has more changes than it gave.
    Stats { more: bool },
    /// Gerrit answered with an error.
    Error,
}
