//! How many changes have each status.

ghost use Rattle.std.specs.Prelude.{◌≡◌, count_by};
ghost use Rattle.page_text.specs.Statuses.{has_status, status_count};

use change_core::{ChangeState, Status};
use state_core::{SharedChange, State};
use std::collections::btree_map::Iter;

/// How many changes of a state have a status. It costs O(n) for n changes.
pub fn status_count(state: &State, status: Status) -> usize
    ensures { result ≡ status_count state.now status }
{
    count_among(state.changes().iter(), status)
}

/// How many of these changes have a status.
fn count_among(changes: Iter<'_, u32, SharedChange>, status: Status) -> usize
    ensures { result ≡ count_by (λ entry. has_status status entry.1) changes.entry }
{
    changes
        .filter(|pair| has_status(pair.1.get(), status))
        .count()
}

/// Whether a change has a status.
fn has_status(change: &ChangeState, status: Status) -> bool
    ensures { result ≡ has_status status change.now }
{
    change.status() == status
}
