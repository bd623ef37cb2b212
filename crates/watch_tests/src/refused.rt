//! Updates to which memory is refused: there are no verdicts then, and the update made again gives those of the whole
//! record. An evaluator takes its memory from the system, which refuses none in CI; `bench/refuse updates` refuses each
//! request in turn.

ghost use Rattle.std.specs.Prelude.{IfSome};
ghost use Rattle.watch_core.specs.Watching.{FollowsJournal, Precedes};

use super::histories::{A_DEPENDENCY_COMES_AND_GOES, GATE, take_all, text_of};
use gate_rules::Gate;
use lattice_core::NoMemory;
use replica_core::Replica;
use std::alloc::Global;
use std::process::Abort;
use std::test::Fail;
use watch_core::Evaluator;

/// Brings the verdicts up to date. Where memory is refused there are none, and the update is made again. Once they are,
/// an update takes no memory.
fn update(rt: &impl Abort, evaluator: &mut Evaluator, replica: &Replica)
    requires { Precedes evaluator.old replica.now }
{
    if evaluator.update(replica).is_err() {
        assert!(rt; evaluator.verdicts().is_none());
        assert!(rt; evaluator.update(replica).is_ok());
    }
    assert!(rt; evaluator.update(replica).is_ok());
}

/// An evaluator that follows a record whose only item waits for an unknown change, where memory suffices for both.
fn started(alloc: Global, replica: &mut Replica) -> Option<Evaluator>
    ensures { IfSome result (λ evaluator. FollowsJournal evaluator replica.new) }
{
    let gate = Gate::read(alloc, GATE.as_bytes()).ok()?;
    take_all(alloc, replica, A_DEPENDENCY_COMES_AND_GOES[0].steps)?;
    Evaluator::fresh(gate, replica).ok()
}

/// What an evaluator says once the change has come to its record, where memory suffices for that and for the text.
fn updated(
    rt: &impl Abort,
    alloc: Global,
    evaluator: &mut Evaluator,
    replica: &mut Replica,
) -> Option<String>
    requires { Precedes evaluator.old replica.old }
{
    take_all(alloc, replica, A_DEPENDENCY_COMES_AND_GOES[1].steps)?;
    update(rt, evaluator, replica);
    text_of(alloc, evaluator.verdicts())
}

/// What an evaluator says of a record whose only item waits for an unknown change, which comes then.
fn followed(rt: &impl Abort, alloc: Global) -> Option<String> {
    let mut replica = Replica::new(alloc);
    match started(alloc, &mut replica) {
        Some(mut evaluator) => updated(rt, alloc, &mut evaluator, &mut replica),
        None => None,
    }
}

#[test]
fn a_refused_update_is_made_again(rt: HostRuntime) -> Result<(), Fail> {
    let text = followed(&rt, rt.alloc()).ok_or(NoMemory)?;
    assert_eq!(rt; text.as_str(), "ready 7,1\nready 6,1\n");
    Ok(())
}
