//! What the threads of a site share, and what each of them judges under.

ghost use Rattle.std.specs.Prelude.{◌≡◌, IfOk};
ghost use Rattle.site_serve.specs.InForce.{followed_gate, gate_in};

use super::admission::Admission;
use super::errors::Errors;
use super::gate_follower::GateFollower;
use super::metrics::Metrics;
use super::reloads::{InForce, Reloads};
use super::setup::{Prints, SessionHooks};
use byte_ends::Drain;
use pull_guard::Guard;
use site_address::PeerAddress;
use site_net::{Patience, Stop};
use std::alloc::{AllocError, Global};
use std::sync::Arc;
use std::sync::atomic::AtomicBool;
use std::time::Duration;

/// The options of a site, which hold as long as it runs.
#[derive(Drop)]
pub(super) struct SiteOptions<'a> {
    /// The gates that are put in force in the place of the first.
    pub reloads: Arc<Reloads, Global>,
    pub prints: Prints,
    pub guard: Guard,
    pub start: u32,
    pub workers: usize,
    pub peers: Vec<PeerAddress<'a>>,
    pub keys: Option<&'a str>,
    pub pause: Duration,
    pub patience: Patience,
}

/// What the threads of a site share.
#[derive(Drop)]
pub(super) struct SiteContext<'a, E: Drain, T: SessionHooks> {
    pub alloc: Global,
    pub options: SiteOptions<'a>,
    /// The gate that the site begins with.
    pub first: InForce,
    pub errors: Errors<E>,
    pub metrics: Metrics,
    pub stop: &'a Stop,
    pub hooks: &'a T,
    /// Whether another process takes in as this site.
    pub is_start_taken: AtomicBool,
}

/// The gate that a site begins with, for each of its threads that judge.
#[derive(Drop)]
pub(super) struct FirstGates {
    pub reports: InForce,
    pub pages: InForce,
    pub workers: Vec<InForce>,
}

impl FirstGates {
    /// A gate for each thread that judges, of so many workers.
    pub(super) fn new(
        alloc: Global,
        first: &InForce,
        workers: usize,
    ) -> Result<FirstGates, AllocError>
        ensures { IfOk result (λ first_gates. (gate_in first_gates.reports ≡ gate_in first.now)
            × (gate_in first_gates.pages ≡ gate_in first.now)) }
    {
        let reports = first.share()?;
        let pages = first.share()?;
        let workers = shared_gates(alloc, first, workers)?;
        Ok(FirstGates {
            reports,
            pages,
            workers,
        })
    }
}

/// A gate for each of so many workers.
fn shared_gates(
    alloc: Global,
    first: &InForce,
    workers: usize,
) -> Result<Vec<InForce>, AllocError> {
    let mut first_gates = Vec::with_capacity(alloc, workers)?;
    for _ in 0..workers {
        let same = first.share()?;
        first_gates.push(same)?;
    }
    Ok(first_gates)
}

impl<E: Drain, T: SessionHooks> SiteContext<'_, E, T> {
    /// A follower that begins with this gate.
    pub(super) fn gate_follower(&self, first: InForce) -> GateFollower<'_>
        ensures { followed_gate result ≡ gate_in first }
    {
        GateFollower::new(&self.options.reloads, first)
    }

    /// By what the site admits connections, and dials.
    pub(super) fn admission(&self) -> Admission<'_, T> {
        Admission {
            reader: self.hooks,
            keys: self.options.keys,
            site: self.options.guard.own,
        }
    }
}
