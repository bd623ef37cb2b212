//! Processes the findings of a line: offers their bodies to the site, and reports losses.

ghost use Rattle.std.specs.Prelude.{◌≡◌, IfOk, MatchOption, string_bytes};
ghost use Rattle.event_feed.specs.Texts.{fault_line};
ghost use Rattle.event_filter.specs.Newest.{IsOpenTo};
ghost use Rattle.feed_client.specs.InTurn.{InTurn};
ghost use Rattle.feed_client.specs.Meeting.{IsLostFinding, KeepsTaken, Meets, Offers, ReportsLoss, TakesUp, place_at};
ghost use Rattle.feed_client.specs.Meeting.{refused_line, refused_words};
ghost use Rattle.gerrit_events.specs.declared.fault.EventFault.{EventFault as Lost};

use super::intake::{Intake, IntakeFault, Refusal};
use byte_ends::Drain;
use event_feed::{FeedFault, fault_line, send};
use event_filter::{brought, is_moot};
use gerrit_events::{EventFault, EventKey, Finding};
use lattice_core::NoMemory;
use refusal_line::{Part, refusal_line};
use review_ops::{Body, Op, Stamp};
use state_core::State;
use std::alloc::{AllocError, Global};

/// The number of the refusal line of a body that the site refused.
const REFUSED: u8 = 6;

/// Processes the findings of the line with this number, one after the other.
pub fn meet_all<T: Intake, E: Drain>(
    alloc: Global,
    number: u64,
    findings: Vec<Finding>,
    site: &mut T,
    state: &mut State,
    errors: &mut E,
) -> Result<(), FeedFault>
    ensures { InTurn (Meets T.replies number) findings.items
        (place_at site.old state.old (E.taken errors.old) (E.failed errors.old))
        (place_at site.new state.new (E.taken errors.new) (E.failed errors.new))
        result }
{
    for finding in findings {
        meet(alloc, number, finding, site, state, errors)?;
    }
    Ok(())
}

/// Processes a finding.
fn meet<T: Intake, E: Drain>(
    alloc: Global,
    number: u64,
    finding: Finding,
    site: &mut T,
    state: &mut State,
    errors: &mut E,
) -> Result<(), FeedFault>
    ensures { Meets T.replies number finding
        (place_at site.old state.old (E.taken errors.old) (E.failed errors.old))
        (place_at site.new state.new (E.taken errors.new) (E.failed errors.new))
        result }
{
    match lost_of(state, &finding) {
        Some(fault) => report_loss(alloc, number, fault, errors),
        None => match brought(alloc, state, finding) {
            Ok(bodies) => offer_all(alloc, number, bodies, site, state, errors),
            Err(_) => Err(FeedFault::NoMemory),
        },
    }
}

/// The loss of a finding, if there is one: that of the line itself, or an abandon or a restore of a merged change.
fn lost_of(state: &State, finding: &Finding) -> Option<EventFault>
    ensures { MatchOption result ((fault : Lost) → ¬ IsLostFinding state.now finding.now fault)
        (IsLostFinding state.now finding.now) }
{
    match finding {
        Finding::Refuses(fault) => Some(*fault),
        Finding::Brings(body) => moot_fault(state, body),
        Finding::Shows(_) | Finding::Lists(_) => None,
    }
}

/// The loss of a body, if it has no effect.
fn moot_fault(state: &State, body: &Body) -> Option<EventFault>
    ensures { MatchOption result ((fault : Lost) → ¬ ((¬ IsOpenTo state.now body.now) × (fault ≡ EventFault.BadEvent EventKey.Status)))
        (λ fault. (¬ IsOpenTo state.now body.now) × (fault ≡ EventFault.BadEvent EventKey.Status)) }
{
    if is_moot(state, body) {
        return Some(EventFault::BadEvent(EventKey::Status));
    }
    None
}

/// Offers bodies to the site, one after the other.
pub fn offer_all<T: Intake, E: Drain>(
    alloc: Global,
    number: u64,
    bodies: Vec<Body>,
    site: &mut T,
    state: &mut State,
    errors: &mut E,
) -> Result<(), FeedFault>
    ensures { InTurn (Offers T.replies number) bodies.items
        (place_at site.old state.old (E.taken errors.old) (E.failed errors.old))
        (place_at site.new state.new (E.taken errors.new) (E.failed errors.new))
        result }
{
    for body in bodies {
        offer(alloc, number, body, site, state, errors)?;
    }
    Ok(())
}

/// Offers a body to the site.
fn offer<T: Intake, E: Drain>(
    alloc: Global,
    number: u64,
    body: Body,
    site: &mut T,
    state: &mut State,
    errors: &mut E,
) -> Result<(), FeedFault>
    ensures { Offers T.replies number body
        (place_at site.old state.old (E.taken errors.old) (E.failed errors.old))
        (place_at site.new state.new (E.taken errors.new) (E.failed errors.new))
        result }
{
    let reply = site.take_in(&body);
    take_up(alloc, number, body, reply, state, errors)
}

/// Handles the reply to a body: takes the operation into the state, reports a refusal, or ends the feed.
fn take_up<E: Drain>(
    alloc: Global,
    number: u64,
    body: Body,
    reply: Result<Stamp, IntakeFault>,
    state: &mut State,
    errors: &mut E,
) -> Result<(), FeedFault>
    ensures { TakesUp number body reply state.old state.new
        (record { taken = E.taken errors.old; failed = E.failed errors.old })
        (record { taken = E.taken errors.new; failed = E.failed errors.new }) result }
{
    match reply {
        Ok(stamp) => keep(state, Op::new(stamp, body)),
        Err(IntakeFault::Refused(refusal)) => report_refusal(alloc, number, refusal, errors),
        Err(IntakeFault::NotAllowed) => Err(FeedFault::NotAllowed),
        Err(IntakeFault::NoEnd) => Err(FeedFault::NoEnd),
        Err(IntakeFault::Ended) => Err(FeedFault::Ended),
        Err(IntakeFault::NoMemory) => Err(FeedFault::NoMemory),
    }
}

/// Takes an operation, which the site has taken in, into the state.
fn keep(state: &mut State, op: Op) -> Result<(), FeedFault>
    ensures { KeepsTaken op state.old state.new result }
{
    match state.take(&op) {
        Ok(()) => Ok(()),
        Err(_) => Err(FeedFault::NoMemory),
    }
}

/// Reports that the site refused a body of the line of this number.
fn report_refusal<E: Drain>(
    alloc: Global,
    number: u64,
    refusal: Refusal,
    errors: &mut E,
) -> Result<(), FeedFault>
    ensures { ReportsLoss (refused_line number refusal)
        (record { taken = E.taken errors.old; failed = E.failed errors.old })
        (record { taken = E.taken errors.new; failed = E.failed errors.new }) result }
{
    match refused_line(alloc, number, refusal) {
        Ok(text) => report(errors, text.as_str()),
        Err(_) => Err(FeedFault::NoMemory),
    }
}

/// The line of a refusal.
fn refused_line(alloc: Global, number: u64, refusal: Refusal) -> Result<String, NoMemory>
    ensures { IfOk result (λ line. string_bytes line ≡ refused_line number refusal) }
{
    let words = refused_words(alloc, number, refusal.text())?;
    let line = refusal_line(alloc, Part::Events, REFUSED, words.as_str())?;
    Ok(line)
}

/// The words of a refusal, with the text of the site's answer.
fn refused_words(alloc: Global, number: u64, text: &str) -> Result<String, AllocError>
    ensures { IfOk result (λ words. string_bytes words ≡ refused_words number text.now) }
{
    let mut words = format!(in alloc; "Refused {number} ")?;
    words.push_str(text)?;
    Ok(words)
}

/// Reports what is lost of the line of this number.
fn report_loss<E: Drain>(
    alloc: Global,
    number: u64,
    fault: EventFault,
    errors: &mut E,
) -> Result<(), FeedFault>
    ensures { ReportsLoss (fault_line number fault)
        (record { taken = E.taken errors.old; failed = E.failed errors.old })
        (record { taken = E.taken errors.new; failed = E.failed errors.new }) result }
{
    match fault_line(alloc, number, fault) {
        Ok(text) => report(errors, text.as_str()),
        Err(_) => Err(FeedFault::NoMemory),
    }
}

/// Writes a text to standard error.
fn report<E: Drain>(errors: &mut E, text: &str) -> Result<(), FeedFault>
    ensures { ReportsLoss text.now (record { taken = E.taken errors.old; failed = E.failed errors.old })
        (record { taken = E.taken errors.new; failed = E.failed errors.new }) result }
{
    match send(errors, text) {
        Ok(()) => Ok(()),
        Err(fault) => Err(fault),
    }
}
