//! The sessions that are open, each at its place.

ghost use Rattle.std.specs.Prelude.{◌≡◌, ◌≢◌, ℕ, IfErr, IfOk, Some, false, slice_get, true};
ghost use Rattle.site_serve.specs.Answered.{GoesOnWith, IsPlaceAfter, SaysFault, SaysStamp};

use super::ask::Answer;
use super::jobs::{Reply, Work};
use super::session::Session;
use site_shared::Naming;
use std::alloc::{AllocError, Global};
use std::time::Duration;

/// The sessions that are open, each at its place, and which of them are looked at in the next turn.
#[derive(Drop)]
pub(super) struct Places<J: Naming> {
    sessions: Vec<Option<Session<J>>>,
    free: Vec<usize>,
    listed: Vec<usize>,
}

impl<J: Naming> Places<J> {
    /// A table of so many places, all free.
    pub(super) fn new(alloc: Global, places: usize) -> Result<Places<J>, AllocError> {
        let free = free_ones(alloc, places)?;
        let listed = Vec::with_capacity(alloc, places)?;
        let sessions = empty_places(alloc, places)?;
        Ok(Places {
            sessions,
            free,
            listed,
        })
    }

    /// How many places there are.
    pub(super) fn count(&self) -> usize {
        self.sessions.len()
    }

    /// Whether every place is free.
    pub(super) fn are_free(&self) -> bool {
        self.free.len() >= self.sessions.len()
    }

    /// Takes a free place, if there is one.
    pub(super) fn free_one(&mut self) -> Option<usize> {
        self.free.pop()
    }

    /// Puts a session at a place.
    pub(super) fn put_session(&mut self, place: usize, session: Session<J>) {
        if let Some(slot) = self.sessions.get_mut(place) {
            *slot = Some(session);
        }
    }

    /// The session at a place.
    pub(super) fn session(&mut self, place: usize) -> Option<&mut Session<J>> {
        match self.sessions.get_mut(place) {
            Some(Some(session)) => Some(session),
            _ => None,
        }
    }

    /// Has a session looked at in the next turn.
    pub(super) fn list(&mut self, place: usize) {
        if let Some(Some(session)) = self.sessions.get_mut(place) {
            enlist(session, &mut self.listed, place);
        }
    }

    /// How many sessions are looked at in the next turn.
    pub(super) fn listed(&self) -> usize {
        self.listed.len()
    }

    /// The place of one of those that are looked at in the next turn.
    pub(super) fn listed_at(&self, at: usize) -> Option<usize> {
        match self.listed.get(at) {
            Some(place) => Some(*place),
            None => None,
        }
    }

    /// Keeps only those among the listed that have more to do.
    pub(super) fn unlist(&mut self) {
        let mut kept = 0;
        for at in 0..self.listed.len() {
            if let Some(place) = self.listed_at(at) {
                if self.stays(place) {
                    self.put_listed(kept, place);
                    kept = kept.saturating_add(1);
                }
            }
        }
        self.listed.truncate(kept);
    }

    /// Puts a place among the listed.
    fn put_listed(&mut self, at: usize, place: usize) {
        if let Some(slot) = self.listed.get_mut(at) {
            *slot = place;
        }
    }

    /// Whether the session at a place stays listed.
    fn stays(&mut self, place: usize) -> bool {
        match self.session(place) {
            Some(session) => {
                session.is_listed = session.has_more();
                session.is_listed
            }
            None => false,
        }
    }

    /// Notes that the connection of a session may have more to read, or takes more, and whether the other side sends
    /// nothing more.
    pub(super) fn note_ready(&mut self, place: usize, is_closing: bool) {
        if let Some(Some(session)) = self.sessions.get_mut(place) {
            session.note_ready(is_closing);
            enlist(session, &mut self.listed, place);
        }
    }

    /// Gives the desk's answer to the session with this number at a place, unless it has ended. No other session is
    /// answered.
    pub(super) fn take_answer(
        &mut self,
        alloc: Global,
        place: usize,
        number: u64,
        answer: Answer<J>,
    )
        ensures others { (other : ℕ) → other ≢ place
            → slice_get self.new.sessions.items other ≡ slice_get self.old.sessions.items other }
        ensures strangers { (session : _) → slice_get self.old.sessions.items place ≡ Some (Some session)
            → session.number ≢ number → slice_get self.new.sessions.items place ≡ Some (Some session) }
        ensures own { (session : _) → slice_get self.old.sessions.items place ≡ Some (Some session)
            → session.number ≡ number → (after : _) × (slice_get self.new.sessions.items place ≡ Some (Some after))
            × IfOk answer (λ done. SaysStamp done.stamp session.outbox after.outbox)
            × IfErr answer (λ fault. SaysFault fault session.outbox after.outbox) }
    {
        let Some(slot) = self.sessions.get_mut(place) else {
            return;
        };
        answer_at(alloc, slot, &mut self.listed, place, number, answer);
    }

    /// Answers each session whose `take`s wait that the site has ended, as far as its connection takes that at once.
    pub(super) fn refuse_waiting(&mut self, alloc: Global, now: Duration) {
        for place in 0..self.sessions.len() {
            if let Some(Some(session)) = self.sessions.get_mut(place) {
                session.refuse_waiting(alloc);
                session.write(now);
            }
        }
    }

    /// Gives a worker's reply to its session, unless that has ended. Returns whether the session has left. No other
    /// session is affected.
    pub(super) fn take_reply(&mut self, reply: Reply, now: Duration) -> bool
        ensures others { (other : ℕ) → other ≢ reply.place
            → slice_get self.new.sessions.items other ≡ slice_get self.old.sessions.items other }
        ensures strangers { (session : _) → slice_get self.old.sessions.items reply.place ≡ Some (Some session)
            → session.number ≢ reply.session
            → slice_get self.new.sessions.items reply.place ≡ Some (Some session) }
        ensures own { (session : _) → slice_get self.old.sessions.items reply.place ≡ Some (Some session)
            → session.number ≡ reply.session → (slot : _) × (slice_get self.new.sessions.items reply.place ≡ Some slot)
            × IsPlaceAfter reply.work session slot }
    {
        let Reply {
            place,
            session: number,
            work,
        } = reply;
        let Some(slot) = self.sessions.get_mut(place) else {
            return false;
        };
        if !leaves_with(slot, &mut self.listed, place, number, work, now) {
            return false;
        }
        // There is room for each place.
        let _kept = self.free.push(place);
        true
    }

    /// How many bytes of answers are unread, counting at most `most` for each session.
    pub(super) fn waiting_bytes(&self, most: usize) -> usize {
        let mut bytes = 0usize;
        for session in self.sessions.iter().flatten() {
            bytes = bytes.saturating_add(session.outbox.len().min(most));
        }
        bytes
    }

    /// Lets a session go on whose look waited for room.
    pub(super) fn unthrottle(&mut self, place: usize) {
        if let Some(session) = self.session(place) {
            if session.unthrottle() {
                self.list(place);
            }
        }
    }

    /// Ends a session that timed out, or any session if the site stops.
    pub(super) fn end_if_over(
        &mut self,
        place: usize,
        patience: site_net::Patience,
        now: Duration,
        is_stopped: bool,
    ) {
        if let Some(session) = self.session(place) {
            if is_stopped {
                session.end(Ok(()));
            }
            session.end_if_over(patience, now);
            if session.is_ending() {
                self.list(place);
            }
        }
    }
}

/// So many places.
fn free_ones(alloc: Global, places: usize) -> Result<Vec<usize>, AllocError> {
    let mut free = Vec::with_capacity(alloc, places)?;
    for place in 0..places {
        free.push(place)?;
    }
    Ok(free)
}

/// So many places without a session.
fn empty_places<J: Naming>(
    alloc: Global,
    places: usize,
) -> Result<Vec<Option<Session<J>>>, AllocError> {
    let mut sessions = Vec::with_capacity(alloc, places)?;
    for _ in 0..places {
        sessions.push(None)?;
    }
    Ok(sessions)
}

/// Applies a worker's result to the session of a number at its place, unless that has gone. Returns whether the session
/// leaves its place.
fn leaves_with<J: Naming>(
    slot: &mut Option<Session<J>>,
    listed: &mut Vec<usize>,
    place: usize,
    number: u64,
    work: Work,
    now: Duration,
) -> bool
    ensures strangers { (session : _) → slot.old ≡ Some session → session.number ≢ number → slot.new ≡ Some session }
    ensures own { (session : _) → slot.old ≡ Some session → session.number ≡ number
        → IsPlaceAfter work session slot.new }
{
    let Some(session) = slot else {
        return false;
    };
    if session.number != number {
        return false;
    }
    if has_left(&work) {
        *slot = None;
        return true;
    }
    apply_work(session, work, now);
    enlist(session, listed, place);
    false
}

/// Whether the work is that the session has ended.
fn has_left(work: &Work) -> bool
    ensures left { result ≡ true → work.now ≡ Work.Left }
    ensures stays { result ≡ false → work.now ≢ Work.Left }
{
    matches!(work, Work::Left)
}

/// Applies a worker's result to a session.
fn apply_work<J: Naming>(session: &mut Session<J>, work: Work, now: Duration)
    ensures { GoesOnWith work session.old session.new }
{
    match work {
        Work::Entered => session.resume(),
        Work::Admitted(admitted) => session.admit(admitted, now),
        Work::Rejected(answer) => session.reject(answer),
        Work::KeyLookedAt(role) => session.take_role(role, now),
        Work::Looked(text, answered) => session.take_text(text, answered),
        Work::Left => {}
    }
}

/// Answers the session of a number at its place, unless it has gone.
fn answer_at<J: Naming>(
    alloc: Global,
    slot: &mut Option<Session<J>>,
    listed: &mut Vec<usize>,
    place: usize,
    number: u64,
    answer: Answer<J>,
)
    ensures strangers { (session : _) → slot.old ≡ Some session → session.number ≢ number → slot.new ≡ Some session }
    ensures own { (session : _) → slot.old ≡ Some session → session.number ≡ number
        → (after : _) × (slot.new ≡ Some after)
        × IfOk answer (λ done. SaysStamp done.stamp session.outbox after.outbox)
        × IfErr answer (λ fault. SaysFault fault session.outbox after.outbox) }
{
    let Some(session) = slot else {
        return;
    };
    if session.number == number {
        session.take_answer(alloc, answer);
        enlist(session, listed, place);
    }
}

/// Has a session looked at in the next turn. There is room for each place.
fn enlist<J: Naming>(session: &mut Session<J>, listed: &mut Vec<usize>, place: usize)
    ensures { session.new ≡ record session.old { is_listed = true } }
{
    if !session.is_listed {
        let _kept = listed.push(place);
    }
    session.is_listed = true;
}
