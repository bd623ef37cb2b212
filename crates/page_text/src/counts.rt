//! How many items wait, and for what.

ghost use Rattle.std.specs.Prelude.{◌≡◌, count_by};
ghost use Rattle.page_text.specs.Counts.{is_counted};

use super::held::{Held, is_held};
use super::rows::is_for;
use page_routes::Reason;
use ready_core::{Left, Refusal};
use report_changes::is_over;

/// Which of the items that are left out are counted.
#[derive(Clone, Copy)]
pub enum Counted {
    /// Those that are open, that is, those that aren't over.
    Open,
    /// Those that are open and wait for this reason.
    For(Reason),
    /// Those that are held up by this cause.
    By(Held),
}

/// How many of the items that are left out are counted. It costs O(n) for n items.
pub fn count_of(out: &[Left], counted: Counted) -> usize
    ensures { result ≡ count_by (λ left. is_counted counted left.refusal) out.now }
{
    out.iter()
        .filter(|left| is_counted(counted, left.refusal))
        .count()
}

/// Whether an item with this refusal is counted.
fn is_counted(counted: Counted, refusal: Refusal) -> bool
    ensures { result ≡ is_counted counted refusal }
{
    match counted {
        Counted::Open => !is_over(refusal),
        Counted::For(reason) => !is_over(refusal) && is_for(reason, refusal),
        Counted::By(held) => is_held(held, refusal),
    }
}
