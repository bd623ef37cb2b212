//! The names under which a list is asked for.

ghost use Rattle.std.specs.Prelude.{◌≡◌};
ghost use Rattle.page_text.specs.Names.{reason_name, shown_name};

use page_routes::{Reason, Shown};

/// All reasons, in the order in which they are listed.
pub const REASONS: [Reason; 5] = [
    Reason::Require,
    Reason::Reject,
    Reason::Cycle,
    Reason::Unknown,
    Reason::Dependency,
];

/// All kinds of items, in the order in which they are listed.
pub const KINDS: [Shown; 3] = [Shown::Open, Shown::Ready, Shown::All];

/// The name of a reason in a query, which is the first word of its refusals.
pub fn reason_name(reason: Reason) -> &'static str
    ensures { result.now ≡ reason_name reason }
{
    match reason {
        Reason::Require => "require",
        Reason::Reject => "reject",
        Reason::Cycle => "cycle",
        Reason::Unknown => "unknown",
        Reason::Dependency => "dependency",
    }
}

/// The name of a kind of items in a query.
pub fn shown_name(shown: Shown) -> &'static str
    ensures { result.now ≡ shown_name shown }
{
    match shown {
        Shown::Open => "open",
        Shown::Ready => "ready",
        Shown::All => "all",
    }
}
