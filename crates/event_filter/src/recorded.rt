//! Whether a record has already what a body says.

ghost use Rattle.std.specs.Prelude.{◌≡◌, ◌↔◌, IsTrue, IfOk, string_bytes};
ghost use Rattle.change_core.specs.Views.{status_of};
ghost use Rattle.event_filter.specs.Recorded.{HasPatch, IsRecorded, HasDeed, score_at};
ghost use Rattle.review_ops.specs.Draft.{deed_of};

use change_core::{ChangeState, Status, VoteSlot};
use lattice_core::{Keep, NoMemory};
use review_ops::{Body, Draft};
use state_core::State;
use std::alloc::Allocator;

/// Whether a record says already what a body says: the patch set has the same message and parent, the vote of the same
/// voter on the same label has the same value, or the change has the same status. A withdrawn vote, a vote of 0 and no
/// vote are the same. A change without operations has the status NEW. Refusal: memory was refused, for the key of a
/// vote. It costs O(log n + m) for n changes, patch sets and votes, and m bytes of the body's texts.
pub fn is_recorded<A: Allocator + Copy>(state: &State<A>, body: &Body<A>) -> Result<bool, NoMemory>
    ensures { IfOk result (λ said. IsTrue said ↔ IsRecorded state.now body.now) }
{
    match state.change(body.change()) {
        Some(change) => says(change, body.draft()),
        None => says(&ChangeState::new(state.allocator()), body.draft()),
    }
}

/// Whether a change has what a draft says.
fn says<A: Allocator + Copy>(change: &ChangeState<A>, draft: &Draft<A>) -> Result<bool, NoMemory>
    ensures { IfOk result (λ said. IsTrue said ↔ HasDeed change.now (deed_of draft.now)) }
{
    match draft {
        Draft::PatchSet {
            set,
            message,
            parent,
            ..
        } => Ok(has_patch(change, *set, message.as_str(), *parent)),
        Draft::Vote {
            set,
            label,
            voter,
            value,
            ..
        } => has_score(change, *set, label, voter, *value),
        Draft::Withdraw {
            set,
            label,
            voter,
            ..
        } => has_score(change, *set, label, voter, 0),
        Draft::Abandon { .. } => Ok(has_status(change, Status::Abandoned)),
        Draft::Restore { .. } => Ok(has_status(change, Status::New)),
        Draft::Merged { .. } => Ok(has_status(change, Status::Merged)),
    }
}

/// Whether a patch set is known with this message and parent.
fn has_patch<A: Allocator + Copy>(
    change: &ChangeState<A>,
    set: u32,
    message: &str,
    parent: Option<u32>,
) -> bool
    ensures { IsTrue result ↔ HasPatch change.now set (record { message = message.now; parent = parent }) }
{
    match change.sets().get(&set) {
        Some(held) => held.value().message.as_str() == message && held.value().parent == parent,
        None => false,
    }
}

/// Whether a voter's score is this value; no vote is one of 0.
fn has_score<A: Allocator + Copy>(
    change: &ChangeState<A>,
    set: u32,
    label: &String<A>,
    voter: &String<A>,
    value: i8,
) -> Result<bool, NoMemory>
    ensures { IfOk result (λ has. IsTrue has ↔ (score_at change.now
        (record { set = set; label = string_bytes label.now; voter = string_bytes voter.now }) ≡ value)) }
{
    Ok(score_by(change, set, label, voter)? == value)
}

/// A voter's score of a label on a patch set; no vote is one of 0.
pub fn score_by<A: Allocator + Copy>(
    change: &ChangeState<A>,
    set: u32,
    label: &String<A>,
    voter: &String<A>,
) -> Result<i8, NoMemory>
    ensures { IfOk result (λ score. score ≡ score_at change.now
        (record { set = set; label = string_bytes label.now; voter = string_bytes voter.now })) }
{
    let label = label.copy()?;
    let voter = voter.copy()?;
    match change.all_votes().get(&VoteSlot { set, label, voter }) {
        Some(held) => Ok(*held.value()),
        None => Ok(0),
    }
}

/// Whether a change has this status.
fn has_status<A: Allocator + Copy>(change: &ChangeState<A>, status: Status) -> bool
    ensures { IsTrue result ↔ (status_of change.now ≡ status) }
{
    change.status() == status
}
