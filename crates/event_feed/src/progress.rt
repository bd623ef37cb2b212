//! How far the answer of a query has come.

ghost use Rattle.std.specs.Prelude.{◌≡◌, ◌↔◌, List};
ghost use Rattle.event_feed.specs.Progress.{AreBeside, EndsWhole, after_part, end_of, progress_of};
ghost use Rattle.event_feed.specs.declared.progress.Progress.TheVariants.{Unbegun, Whole};
ghost use Rattle.gerrit_events.specs.declared.part.Part.{Part as Piece};

use super::fault::FeedFault;
use gerrit_events::Part;

/// What a feed reads.
#[derive(Clone, Copy, Debug, PartialEq, Eq)]
pub enum Input {
    /// The stream of events, which has no end of its own.
    Stream,
    /// The answer of a query.
    Answer,
}

/// How far the answer of a query has come.
#[derive(Clone, Copy, Debug, PartialEq, Eq)]
pub enum Progress {
    /// Nothing of an answer was read.
    Unbegun,
    /// It has begun, and more has to come.
    Open,
    /// It has ended, and Gerrit has no more changes.
    Whole,
}

impl Progress {
    /// How far the answer has come once a line is read that is this part of it: a row opens it, and a line of its
    /// statistics ends it, unless that says that more is left.
    pub fn after(self, part: Part) -> Progress
        ensures { result ≡ after_part self part }
    {
        match part {
            Part::Nothing | Part::Event(_) | Part::Error => self,
            Part::Row(_) | Part::Stats { more: true } => Progress::Open,
            Part::Stats { more: false } => Progress::Whole,
        }
    }
}

impl Input {
    /// How a feed ends whose source ends where the answer has come so far. A query has to be answered, and an answer
    /// that has begun has to come to its end: else 9 `Incomplete`.
    pub fn end(self, progress: Progress) -> Result<(), FeedFault>
        ensures { result ≡ end_of self progress }
    {
        match (self, progress) {
            (Input::Stream, Progress::Unbegun) | (_, Progress::Whole) => Ok(()),
            (Input::Answer, Progress::Unbegun) | (_, Progress::Open) => Err(FeedFault::Incomplete),
        }
    }
}

/// A law: an answer is whole just where the last row or line of statistics is one of statistics, which says that no
/// more is left; and it hasn't begun just where neither came.
pub fn answers_end_with_statistics()
    ensures whole { (parts : List Piece) → (progress_of parts ≡ Whole) ↔ EndsWhole parts }
    ensures unbegun { (parts : List Piece) → (progress_of parts ≡ Unbegun) ↔ AreBeside parts }
{}
