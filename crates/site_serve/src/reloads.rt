//! The gates that are put in force while a site runs, which its threads share.

ghost use Rattle.std.specs.Prelude.{◌≡◌, ◌<◌, ◌≤◌, IfOk, IfSome, IsSomeAnd, None};
ghost use Rattle.std.specs.Arc.{arc_value};
ghost use Rattle.site_serve.specs.InForce.{SucceedsGate, gate_in};

use super::wakeup::Wakeup;
use gate_rules::Gate;
use std::alloc::{AllocError, Global};
use std::sync::{Arc, Mutex, Wait};

/// A gate that was put in force, with its number: 0 is that which the site began with, and each later one has a greater
/// number than those before it.
#[derive(Drop)]
pub struct InForce {
    gate: Arc<Gate, Global>,
    number: u64,
}

impl InForce {
    /// The gate that a site begins with.
    pub fn first(alloc: Global, gate: Gate) -> Result<InForce, AllocError>
        ensures { IfOk result (λ first. gate_in first ≡ gate) }
    {
        match Arc::new(alloc, gate) {
            Ok(gate) => Ok(InForce { gate, number: 0 }),
            Err(_) => Err(AllocError),
        }
    }

    /// The gate.
    pub fn gate(&self) -> &Gate
        ensures { result.now ≡ gate_in self.now }
    {
        &self.gate
    }

    /// Its number.
    pub fn number(&self) -> u64
        ensures { result ≡ self.now.number }
    {
        self.number
    }

    /// The same, for another thread.
    pub fn share(&self) -> Result<InForce, AllocError>
        ensures { IfOk result (λ same. (gate_in same ≡ gate_in self.now) × (same.number ≡ self.now.number)) }
    {
        let gate = Arc::try_clone(&self.gate)?;
        Ok(InForce {
            gate,
            number: self.number,
        })
    }
}

/// The latest gate that was put in force, if any was.
#[derive(Drop)]
struct Latest {
    in_force: Option<InForce>,
}

impl Latest {
    /// Puts a gate in force in place of the latest.
    fn put(&mut self, gate: Arc<Gate, Global>)
        ensures { SucceedsGate self.old.in_force (arc_value gate) self.new.in_force }
    {
        let number = match &self.in_force {
            Some(latest) => latest.number.saturating_add(1),
            None => 1,
        };
        self.in_force = Some(InForce { gate, number });
    }

    /// The latest, where its number is greater than this one.
    fn newer_than(&self, number: u64) -> Option<InForce>
        ensures newer { IfSome result (λ newer. number < newer.number) }
        ensures latest { IfSome result (λ newer. IsSomeAnd self.now.in_force
            (λ latest. (gate_in newer ≡ gate_in latest) × (newer.number ≡ latest.number))) }
        ensures none { IfSome self.now.in_force (λ latest. latest.number ≤ number → result ≡ None) }
    {
        let Some(latest) = &self.in_force else {
            return None;
        };
        if latest.number <= number {
            return None;
        }
        latest.share().ok()
    }
}

/// The gates that are put in force while a site runs: each takes the place of the one before it.
#[derive(Drop)]
pub struct Reloads {
    latest: Mutex<Latest>,
    /// What wakes who prints the reports.
    wakeup: Wakeup,
}

impl Reloads {
    /// The site's first gate is in force.
    pub fn new() -> Reloads {
        Reloads {
            latest: Mutex::new(Latest { in_force: None }),
            wakeup: Wakeup::new(),
        }
    }

    /// Puts a gate in force: from now on each thread of the site judges under it as soon as it looks at the record
    /// anew, and what is printed is printed anew. Where memory is refused for that, the one before it stays in force.
    pub fn put(&self, rt: &impl Wait, alloc: Global, gate: Gate) -> Result<(), AllocError> {
        let Ok(gate) = Arc::new(alloc, gate) else {
            return Err(AllocError);
        };
        self.replace(rt, gate);
        self.wakeup.set(rt);
        Ok(())
    }

    /// Puts a gate in force, and wakes nobody.
    fn replace(&self, rt: &impl Wait, gate: Arc<Gate, Global>) {
        let mut latest = self.latest.lock(rt);
        latest.put(gate);
    }

    /// The gate in force, where its number is greater than this one.
    pub fn newer_than(&self, rt: &impl Wait, number: u64) -> Option<InForce>
        ensures { IfSome result (λ newer. number < newer.number) }
    {
        let latest = self.latest.lock(rt);
        latest.newer_than(number)
    }

    /// The wake-up that is set when a gate is put in force.
    pub fn wakeup(&self) -> &Wakeup {
        &self.wakeup
    }
}
