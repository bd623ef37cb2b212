//! The findings of a line.

use super::fault::EventFault;
use super::listing::Listing;
use review_ops::Body;

/// A finding of a line: a body, a patch set or a listing of votes that it shows, or a loss.
#[derive(Debug, Drop)]
pub enum Finding {
    /// A valid body, with its label in lower case.
    Brings(Body),
    /// A patch set that an event shows: its message may be that of a later one, and which change its parent is only
    /// Gerrit can say. If the record has it, at most its parent is new. Or the withdrawal of a vote that an event shows as
    /// 0, without saying that it was taken back.
    Shows(Body),
    /// All votes of a patch set.
    Lists(Listing),
    /// A loss, with the key that is at fault.
    Refuses(EventFault),
}
