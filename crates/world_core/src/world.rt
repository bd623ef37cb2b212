//! A world that came about by events alone, and so converges.
ghost use Rattle.std.specs.Prelude.{◌≡◌, [], ◌∷◌, IfOk, OnErr};
ghost use Rattle.std.specs.Option.{option_copied, option_map};
ghost use Rattle.world_core.specs.Convergence.{ConvergesOn, HasConverged};
ghost use Rattle.world_core.specs.Numbered.{numbered};
ghost use Rattle.world_core.specs.World.{new_world};
ghost use Rattle.world_core.specs.Step.{Step, Run};

use super::event::{Event, Reply, WorldFault};
use super::machine::Machine;
use lattice_core::NoMemory;
use replica_core::Replica;
use review_ops::Op;
use std::alloc::{Allocator, Global};
use std::marker::Model;

/// Sites that hold replicas, and the packets that they have sent. A packet stays for good: one that is never delivered
/// is lost, one delivered twice is repeated. Contracts see the sites and the packets as lists. Each world came about by
/// events alone, since it began with empty sites: so it converges, as `converges` says.
#[derive(Drop)]
pub struct World<A: Allocator + Copy = Global> {
    alloc: A,
    machine: Machine<A>,
}

impl<A: Allocator + Copy> Model for World<A> {
    ghost use Rattle.world_core.specs.World.{WorldState};
    ghost use Rattle.world_core.specs.Convergence.{CameAbout};

    ghost Value = { WorldState };

    ghost view = { λ world. world.machine };

    ghost invariant = { λ world. CameAbout A world.machine };
}

impl<A: Allocator + Copy> World<A> {
    /// A world of sites numbered from 1, each with an empty journal, an empty save and start 1, and no packets.
    pub fn new(alloc: A, sites: u16) -> Result<World<A>, NoMemory>
        ensures { IfOk result (λ world. world ≡ new_world sites) }
    {
        let machine = Machine::new(alloc, sites)?;
        Ok(World { alloc, machine })
    }

    /// Worlds converge: some run of events led from empty sites to this world, and in it each site's journal is just
    /// what came to it, its state is the state of that, sites to which the same operations came have equal states, no
    /// two stamps are of one site, start and sequence number, and every operation is one that an intake made. It does
    /// nothing.
    pub fn converges(&self)
        ensures { HasConverged A self.now }
    {
        let _came_about = &self.machine;
    }

    /// The replica of a site, or none where there is no site of that number. It takes no memory.
    pub fn replica(&self, site: u16) -> Option<&Replica<A>>
        ensures { option_copied result ≡ option_map (λ at. at.journal) (numbered self.now.sites site) }
    {
        self.machine.replica(site)
    }

    /// The operations of a packet, or none where there is no packet of that number. It takes no memory.
    pub fn packet(&self, number: u64) -> Option<&[Op<A>]>
        ensures { option_copied result ≡ numbered self.now.packets number }
    {
        self.machine.packet(number)
    }

    /// Lets an event happen. Whatever run of events led to the world, the world converges on that run and this event.
    pub fn step(&mut self, event: Event<A>) -> Result<Reply, WorldFault>
        ensures step { Step self.old event result self.new }
        ensures converges { ConvergesOn self.old (event ∷ []) (result ∷ []) self.new }
    {
        self.machine.step(event)
    }

    /// Lets events happen in order, and answers what each answered. Memory for the answers is allocated before the
    /// first event; if it is refused nothing changes. Whatever run of events led to the world, the world converges on
    /// that run and these events.
    pub fn run(
        &mut self,
        events: Vec<Event<A>, A>,
    ) -> Result<Vec<Result<Reply, WorldFault>, A>, NoMemory>
        ensures run { IfOk result (λ answers. Run self.old events.items answers.items self.new) }
        ensures converges { IfOk result (λ answers. ConvergesOn self.old events.items answers.items self.new) }
        ensures err { OnErr result (self.new ≡ self.old) }
    {
        let mut answers = Vec::with_capacity(self.alloc, events.len())?;
        for event in events {
            answers.push(self.step(event))?;
        }
        Ok(answers)
    }
}
