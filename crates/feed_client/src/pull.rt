//! Pulls the operations that came to a site into the state that a feed keeps of its record.

ghost use Rattle.std.specs.Prelude.{◌≡◌, ◌<◌, ℕ, List, MatchResult, OnErr, OnOk, fold, length, take};
ghost use Rattle.std.specs.FinMap.{empty};
ghost use Rattle.feed_client.specs.Pulling.{AreReachedBy, FailsRound, IsRound, Pulls, ending_of, gone_on};
ghost use Rattle.review_ops.specs.Timestamp.{Timestamp};
ghost use Rattle.state_core.specs.State.{with_effect};

use super::intake::{Intake, IntakeFault};
use event_feed::FeedFault;
use lattice_core::NoMemory;
use replica_core::{Front, Missing, Row};
use review_ops::{Op, Stamp};
use state_core::State;

/// What a round brought.
#[derive(Drop)]
struct Pulled {
    count: u64,
    more: bool,
}

/// Takes what came to a site into a state, round by round, until there is no more. Answers how many operations came. Of
/// the record only the state is kept. Refusals: 5 `NoMemory`; 8 `Ended`, the site answered no round, or 2^64 - 1 of
/// them without an end; 12 `NotAllowed` and 13 `NoEnd`, it answered so. Then the operations that came before were taken
/// in.
pub fn pull_all<T: Intake>(site: &mut T, state: &mut State) -> Result<u64, FeedFault>
    ensures { Pulls T.answers site.old state.old site.new state.new result }
{
    let mut count: u64 = 0;
    for _round in 0..u64::MAX {
        let pulled = pull_round(site, state)?;
        count = count.saturating_add(pulled.count);
        if !pulled.more {
            return Ok(count);
        }
    }
    Err(FeedFault::Ended)
}

/// Takes one round into a state.
fn pull_round<T: Intake>(site: &mut T, state: &mut State) -> Result<Pulled, FeedFault>
    ensures { MatchResult result
        (λ pulled. IsRound T.answers pulled.count pulled.more site.old state.old site.new state.new)
        (FailsRound T.answers site.old state.old site.new state.new) }
{
    match site.next_round() {
        Ok(Missing { ops, more }) => {
            let count = ops.len() as u64;
            match take_ops(state, ops) {
                Ok(()) => Ok(Pulled { count, more }),
                Err(_) => Err(FeedFault::NoMemory),
            }
        }
        Err(fault) => Err(ending_of(fault)),
    }
}

/// The fault of a feed for the fault of a pull.
fn ending_of(fault: IntakeFault) -> FeedFault
    ensures { result ≡ ending_of fault }
{
    match fault {
        IntakeFault::Refused(_) | IntakeFault::Ended => FeedFault::Ended,
        IntakeFault::NotAllowed => FeedFault::NotAllowed,
        IntakeFault::NoEnd => FeedFault::NoEnd,
        IntakeFault::NoMemory => FeedFault::NoMemory,
    }
}

/// Takes operations into a state, one after the other. Where memory is refused the first so many of them are in.
fn take_ops(state: &mut State, ops: Vec<Op>) -> Result<(), NoMemory>
    ensures ok { OnOk result (state.new ≡ fold with_effect state.old ops.items) }
    ensures err { OnErr result ((count : ℕ) × (count < length ops.items)
        × (state.new ≡ fold with_effect state.old (take count ops.items))) }
{
    for op in ops {
        state.take(&op)?;
    }
    Ok(())
}

/// Raises a front to a stamp, if that is the next one of its row. If memory is refused nothing changes. It costs O(log
/// n) for n rows.
pub fn go_on(front: &mut Front, stamp: Stamp) -> Result<(), NoMemory>
    ensures ok { OnOk result (front.new ≡ gone_on front.old stamp) }
    ensures err { OnErr result (front.new ≡ front.old) }
{
    let row = Row {
        site: stamp.site(),
        start: stamp.start(),
    };
    if stamp.seq() - 1 == front.reach(row) {
        return front.raise(row, stamp.seq());
    }
    Ok(())
}

/// A law: a front that goes on from stamp to stamp reaches over no number that isn't that of one of them.
pub fn fronts_have_no_gap()
    ensures { (stamps : List Timestamp) → AreReachedBy stamps (fold gone_on empty stamps) }
{}
