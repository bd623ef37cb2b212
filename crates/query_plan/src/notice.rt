//! What an operator reads of a query that failed.

ghost use Rattle.std.specs.Prelude.{◌≡◌, ◌++◌, OnOk, string_bytes};
ghost use Rattle.query_plan.specs.Notices.{notice_text};

use std::alloc::AllocError;

/// What becomes of a query that failed.
#[derive(Clone, Copy, Debug, PartialEq, Eq)]
pub enum Notice {
    /// So many changes were queried, and half as many are next.
    Halved(usize),
    /// So many changes were queried, and are queried again.
    Repeated(usize),
    /// This change was queried, took too long, and rests for an hour.
    Slow(u32),
    /// This change was queried, and rests until the next query of all changes.
    Failed(u32),
    /// All changes were queried, and are queried again after so many seconds.
    Paused(u64),
}

impl Notice {
    /// Adds its line, with its LF.
    pub fn write(self, text: &mut String) -> Result<(), AllocError>
        ensures { OnOk result (string_bytes text.new ≡ string_bytes text.old ++ notice_text self) }
    {
        match self {
            Notice::Halved(count) => write!(
                text,
                "feed: a query of {count} changes failed, and half as many are queried next\n"
            ),
            Notice::Repeated(count) => {
                write!(
                    text,
                    "feed: a query of {count} changes failed, and is asked again\n"
                )
            }
            Notice::Slow(change) => write!(
                text,
                "feed: the query of change {change} took too long, and isn't asked again for an hour\n"
            ),
            Notice::Failed(change) => write!(
                text,
                "feed: the query of change {change} failed, and isn't asked again before the next query of all changes\n"
            ),
            Notice::Paused(seconds) => write!(
                text,
                "feed: the query of all changes failed, and is asked again in {seconds} seconds\n"
            ),
        }
    }
}
