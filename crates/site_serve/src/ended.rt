//! What a site gives back once it has ended.

ghost use Rattle.std.specs.Prelude.{◌≡◌, Err, IfErr, IfOk, List, OnOk};
ghost use Rattle.std.specs.Arc.{arc_value};
ghost use Rattle.review_ops.specs.Operation.{Operation};
ghost use Rattle.site_serve.specs.Openings.{HasKept};

use super::setup::{ServeFault, Served};
use lattice_core::NoMemory;
use replica_core::Replica;
use site_ledger::Keeps;
use std::sync::Arc;

/// A site that has ended.
#[derive(Drop)]
pub struct EndedSite<K> {
    /// What keeps its operations.
    pub keeper: K,
    /// The site and the start that it ran under.
    pub origin: (u16, u32),
    /// What it leaves, or why it didn't run to its end.
    pub served: Result<Served, ServeFault>,
}

/// How a site ran to its end.
#[derive(Drop)]
pub struct RunOutcome {
    /// Whether all that it was to print was written.
    pub written: bool,
    /// Whether it ended because another process runs as this site.
    pub is_start_taken: bool,
}

/// The result of a site that couldn't be run.
pub fn failed_site<K: Keeps>(keeper: K, origin: (u16, u32), fault: ServeFault) -> EndedSite<K>
    ensures keeps { (begun : List Operation) → HasKept K.survives (K.holds keeper) begun result.keeper result.served }
    ensures known { K.is_known keeper → K.is_known result.keeper }
    ensures origin { (result.origin.0 ≡ origin.0) × (result.origin.1 ≡ origin.1) }
    ensures fault { result.served ≡ Err fault }
{
    keeper.what_it_has_survives();
    EndedSite {
        keeper,
        origin,
        served: Err(fault),
    }
}

/// What a site leaves, from its outcome and the record that it published last.
pub fn served_of(
    outcome: Result<RunOutcome, ServeFault>,
    shown: Arc<Replica>,
) -> Result<Served, ServeFault>
    ensures shown { IfOk result (λ served. served.replica ≡ arc_value shown) }
    ensures ended { IfOk result (λ served. IfOk outcome
        (λ ended. (served.written ≡ ended.written) × (served.is_start_taken ≡ ended.is_start_taken))) }
    ensures err { IfErr outcome (λ fault. result ≡ Err fault) }
    ensures memory { OnOk outcome (IfErr result (λ fault. fault ≡ ServeFault.NoMemory)) }
{
    let RunOutcome {
        written,
        is_start_taken,
    } = match outcome {
        Ok(outcome) => outcome,
        Err(fault) => return Err(fault),
    };
    match unshared(shown) {
        Ok(replica) => Ok(Served {
            replica,
            written,
            is_start_taken,
        }),
        Err(_) => Err(ServeFault::NoMemory),
    }
}

/// The record itself, or a copy if it is still shared.
fn unshared(shown: Arc<Replica>) -> Result<Replica, NoMemory>
    ensures { IfOk result (λ replica. replica ≡ arc_value shown) }
{
    match Arc::try_unwrap(shown) {
        Ok(replica) => Ok(replica),
        Err(shared) => shared.copy(),
    }
}
