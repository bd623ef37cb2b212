//! Joins a record that was pulled to one that is there.

ghost use Rattle.std.specs.Prelude.{◌≡◌, IfErr, IfOk, None};
ghost use Rattle.console.specs.Pulls.{BringsRecord, IsPullFault};
ghost use Rattle.record_pull.specs.Pulling.{Comes};
ghost use Rattle.replica_core.specs.Journal.{all_arrived};

use console::PullFault;
use gossip_line::LineFault;
use lattice_core::NoMemory;
use replica_core::{Gathering, Replica};
use snapshot_text::snapshots_say_their_operations;

/// A gathering with the operations of a record that was pulled after its own. Refusal: 5 `NoMemory`. Where the
/// gathering is empty it costs nothing; else what a copy and `Gathering::take` cost for each operation.
pub fn joined(gathering: Gathering, pulled: Replica) -> Result<Gathering, PullFault>
    requires { Comes pulled }
    ensures ok { IfOk result (BringsRecord None gathering) }
    ensures all { IfOk result (λ both. both ≡ all_arrived gathering pulled) }
    ensures err { IfErr result IsPullFault }
{
    snapshots_say_their_operations();
    if gathering.len() == 0 {
        return Ok(Gathering::onto(pulled));
    }
    match with_all(gathering, &pulled) {
        Ok(both) => Ok(both),
        Err(_) => Err(PullFault::Failed(LineFault::NoMemory)),
    }
}

/// A gathering that has taken the operations of a replica, in the order in which they came there.
fn with_all(gathering: Gathering, other: &Replica) -> Result<Gathering, NoMemory>
    ensures { IfOk result (λ both. both ≡ all_arrived gathering other.now) }
{
    let mut both = gathering;
    for place in 0..other.len() {
        both.take(other.arrival(place).copy()?)?;
    }
    Ok(both)
}
