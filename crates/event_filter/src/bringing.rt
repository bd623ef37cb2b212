//! The bodies that a finding adds to a record.

ghost use Rattle.std.specs.Prelude.{◌≡◌, ◌↔◌, ◌≤◌, ℕ, [], ◌∷◌, IfOk, IsTrue, OnOk, map};
ghost use Rattle.review_ops.specs.Draft.{deed_of};
ghost use Rattle.change_core.specs.Views.{IsKnownSet};
ghost use Rattle.change_core.specs.VoteShown.{approval_shown};
ghost use Rattle.gerrit_events.specs.Listings.{listing_shown, ballot_shown};
ghost use Rattle.event_filter.specs.Bringing.{AddsDeed, AddsTo, AreBodies, IsBrought, IsNews, IsSaidByRecord, Unless};
ghost use Rattle.event_filter.specs.Bringing.{Where, beyond, is_ballot_of, is_listed_vote, withdrawal};
ghost use Rattle.event_filter.specs.Newest.{IsOpenTo};
ghost use Rattle.event_filter.specs.Recorded.{change_at, patch_at};

use super::recorded::is_recorded;
use change_core::{Approval, ChangeState};
use gerrit_events::{Ballot, Finding, Listing};
use lattice_core::NoMemory;
use review_ops::{Body, Draft};
use state_core::State;
use std::alloc::Global;

/// What a finding brings to a record, in order: a body that the record doesn't say, or could not say, as a merged
/// change is neither abandoned nor restored; a patch set that an event shows, where the record hasn't it and no later
/// one, or has it with this message and without the parent that is known; and of a listing a withdrawal of
/// each vote on the patch set that the record has and it hasn't. Refused is only memory. It costs O(log n + m) for n
/// changes, patch sets and votes and m bytes of texts, and for a listing of b ballots O(b) beside for each vote of the
/// patch set.
pub fn brought(alloc: Global, state: &State, finding: Finding) -> Result<Vec<Body>, NoMemory>
    ensures { IfOk result (λ bodies. IsBrought state.now finding bodies.items) }
{
    match finding {
        Finding::Brings(body) => said(alloc, state, body),
        Finding::Shows(body) => shown(alloc, state, body),
        Finding::Lists(listing) => withdrawals(alloc, state, &listing),
        Finding::Refuses(_) => Ok(Vec::new(alloc)),
    }
}

/// A body, unless the record says it, or could not say it.
fn said(alloc: Global, state: &State, body: Body) -> Result<Vec<Body>, NoMemory>
    ensures { IfOk result (λ bodies. Unless (IsSaidByRecord state.now body) bodies.items body) }
{
    if is_settled(state, &body)? {
        return Ok(Vec::new(alloc));
    }
    only(alloc, body)
}

/// A patch set that an event shows, where it is new.
fn shown(alloc: Global, state: &State, body: Body) -> Result<Vec<Body>, NoMemory>
    ensures { IfOk result (λ bodies. Where (IsNews state.now body) bodies.items body) }
{
    if !is_news(state, &body) {
        return Ok(Vec::new(alloc));
    }
    only(alloc, body)
}

/// A list of one body.
fn only(alloc: Global, body: Body) -> Result<Vec<Body>, NoMemory>
    ensures { IfOk result (λ bodies. bodies.items ≡ body ∷ []) }
{
    let mut bodies = Vec::new(alloc);
    bodies.push(body)?;
    Ok(bodies)
}

/// Whether a record says a body, or could not say it.
fn is_settled(state: &State, body: &Body) -> Result<bool, NoMemory>
    ensures { IfOk result (λ settled. IsTrue settled ↔ IsSaidByRecord state.now body.now) }
{
    if is_moot(state, body) {
        return Ok(true);
    }
    is_recorded(state, body)
}

/// Whether a body has no effect: an abandon or a restore of a merged change, which stays merged. It costs O(log n) for
/// n changes.
pub fn is_moot(state: &State, body: &Body) -> bool
    ensures { IsTrue result ↔ (¬ IsOpenTo state.now body.now) }
{
    match body.draft() {
        Draft::Abandon { .. } | Draft::Restore { .. } => state.is_merged(body.change()),
        _ => false,
    }
}

/// Whether a patch set that an event shows adds something to the record.
fn is_news(state: &State, body: &Body) -> bool
    ensures { IsTrue result ↔ IsNews state.now body.now }
{
    let Draft::PatchSet {
        change,
        set,
        message,
        parent,
    } = body.draft()
    else {
        return false;
    };
    match state.change(*change) {
        None => adds_to(
            &ChangeState::new(state.allocator()),
            *set,
            message.as_str(),
            *parent,
        ),
        Some(found) => adds_to(found, *set, message.as_str(), *parent),
    }
}

/// Whether a patch set that an event shows is new to a change.
fn adds_to(change: &ChangeState, set: u32, message: &str, parent: Option<u32>) -> bool
    ensures { IsTrue result ↔ AddsTo change.now set (patch_at change.now set) message.now parent }
{
    let Some(held) = change.sets().get(&set) else {
        return is_latest(change, set);
    };
    parent.is_some() && held.value().message.as_str() == message && held.value().parent.is_none()
}

/// Whether no later patch set is known.
fn is_latest(change: &ChangeState, set: u32) -> bool
    ensures { IsTrue result ↔ ((later : ℕ) → IsKnownSet change.now later → later ≤ set) }
{
    match change.current() {
        None => true,
        Some(current) => current <= set,
    }
}

/// A withdrawal of each vote on a patch set that isn't listed.
pub fn withdrawals(alloc: Global, state: &State, listing: &Listing) -> Result<Vec<Body>, NoMemory>
    ensures { IfOk result (λ bodies. AreBodies
        (beyond (change_at state.now listing.now.change) (listing_shown listing.now)) bodies.items) }
{
    match state.change(listing.change) {
        None => withdrawals_of(alloc, &ChangeState::new(state.allocator()), listing),
        Some(change) => withdrawals_of(alloc, change, listing),
    }
}

/// A withdrawal of each vote on a patch set of a change that isn't listed.
fn withdrawals_of(
    alloc: Global,
    change: &ChangeState,
    listing: &Listing,
) -> Result<Vec<Body>, NoMemory>
    ensures { IfOk result (λ bodies. AreBodies (beyond change.now (listing_shown listing.now)) bodies.items) }
{
    let mut bodies = Vec::new(alloc);
    for approval in change.approvals(listing.set) {
        if !is_listed(listing.ballots.as_slice(), approval.label, approval.voter) {
            add_withdrawal(alloc, &mut bodies, listing.change, listing.set, &approval)?;
        }
    }
    Ok(bodies)
}

/// Adds the withdrawal of a vote.
fn add_withdrawal(
    alloc: Global,
    bodies: &mut Vec<Body>,
    change: u32,
    set: u32,
    approval: &Approval<'_>,
) -> Result<(), NoMemory>
    ensures { OnOk result (AddsDeed (withdrawal change set (approval_shown approval.now)) bodies.old.items bodies.new.items) }
{
    let draft = Draft::Withdraw {
        change,
        set,
        label: String::from_str(alloc, approval.label)?,
        voter: String::from_str(alloc, approval.voter)?,
    };
    add_body(bodies, draft)
}

/// Adds the body of a draft, where that has no fault.
pub fn add_body(bodies: &mut Vec<Body>, draft: Draft) -> Result<(), NoMemory>
    ensures { OnOk result (AddsDeed (deed_of draft) bodies.old.items bodies.new.items) }
{
    if let Ok(body) = Body::checked(draft) {
        bodies.push(body)?;
    }
    Ok(())
}

/// Whether a vote is listed.
fn is_listed(ballots: &[Ballot], label: &str, voter: &str) -> bool
    ensures { result ≡ is_listed_vote (map ballot_shown ballots.now) label.now voter.now }
{
    for ballot in ballots {
        if is_ballot_of(label, voter, ballot) {
            return true;
        }
    }
    false
}

/// Whether a ballot is that of a vote.
fn is_ballot_of(label: &str, voter: &str, ballot: &Ballot) -> bool
    ensures { result ≡ is_ballot_of label.now voter.now (ballot_shown ballot.now) }
{
    ballot.label.as_str() == label && ballot.voter.as_str() == voter
}
