//! Who says what an item's own condition is, and counts how often.

ghost use Rattle.std.specs.Prelude.{◌≡◌, ℕ};
ghost use Rattle.state_core.specs.State.{state_of};
ghost use Rattle.state_core.specs.Items.{IsItem};
ghost use Rattle.gate_rules.specs.Own.{IsOwn};
ghost use Rattle.watch_core.specs.Asked.{counted};

use gate_rules::{Condition, Gate};
use replica_core::Replica;
use state_core::Item;
use std::marker::Model;

/// Says what items' own conditions are, and counts how often it was asked.
pub trait Judge {
    /// How often it was asked. The count stays at `u64::MAX`.
    ghost asked: { Self → ℕ };

    /// An item's own condition, as `Gate::own` has it.
    fn own(&mut self, gate: &Gate, replica: &Replica, item: Item) -> Option<Condition>
        requires { IsItem (state_of replica.now) item }
        ensures own { IsOwn gate.now (state_of replica.now) item result }
        ensures counted { asked self.new ≡ counted (asked self.old) 1 };

    /// How often it was asked. The count stays at `u64::MAX`.
    fn asked(&self) -> u64
        ensures { result ≡ asked self.now };
}

/// A judge that asks the gate. Contracts see how often it was asked.
#[derive(Debug, Drop)]
pub struct GateJudge {
    asked: u64,
}

impl Model for GateJudge {
    ghost Value = { ℕ };

    ghost view = { λ judge. judge.asked };
}

impl GateJudge {
    /// A judge that wasn't asked yet.
    pub fn new() -> GateJudge
        ensures { result ≡ 0 }
    {
        GateJudge { asked: 0 }
    }
}

impl Judge for GateJudge {
    ghost asked = { λ judge. judge };

    fn own(&mut self, gate: &Gate, replica: &Replica, item: Item) -> Option<Condition> {
        self.asked = self.asked.saturating_add(1);
        gate.own(replica.state(), item)
    }

    fn asked(&self) -> u64 {
        self.asked
    }
}
