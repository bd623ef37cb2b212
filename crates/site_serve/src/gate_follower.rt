//! The gate that a thread of a site judges under.

ghost use Rattle.std.specs.Prelude.{◌≡◌};
ghost use Rattle.std.specs.Option.{ForSome};
ghost use Rattle.site_serve.specs.InForce.{IsNoOlder, followed_gate, gate_in};

use super::opening::OwnWatch;
use super::reloads::{InForce, Reloads};
use site_shared::Naming;
use std::sync::Wait;

/// The gate that a thread judges under: the one that was in force when the thread last asked.
#[derive(Drop)]
pub struct GateFollower<'a> {
    reloads: &'a Reloads,
    pub(super) in_force: InForce,
}

impl<'a> GateFollower<'a> {
    /// A follower that begins with a gate in force, and follows these reloads.
    pub fn new(reloads: &'a Reloads, in_force: InForce) -> GateFollower<'a>
        ensures { followed_gate result ≡ gate_in in_force }
    {
        GateFollower { reloads, in_force }
    }

    /// Switches to the gate that is in force now, never to an older one. If the gate changed, the kept verdicts, which
    /// are of the previous gate, are dropped.
    pub fn follow<R: Wait, J: Naming>(&mut self, rt: &R, kept: &mut Option<OwnWatch<J>>)
        requires { ForSome kept.old (λ watch. watch.watch.gate ≡ followed_gate self.old) }
        ensures kept { ForSome kept.new (λ watch. watch.watch.gate ≡ followed_gate self.new) }
        ensures forward { IsNoOlder self.old.in_force self.new.in_force }
    {
        if let Some(newer) = self.reloads.newer_than(rt, self.in_force.number()) {
            self.in_force = newer;
            *kept = None;
        }
    }
}
