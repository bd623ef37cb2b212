//! The machine: sites and the packets between them, and what each event does.
ghost use Rattle.std.specs.Prelude.{◌≡◌, ◌⊎◌, ◌+◌, ◌<◌, IfOk, MatchOption};
ghost use Rattle.std.specs.Option.{option_copied, option_map};
ghost use Rattle.review_ops.specs.Draft.{deed_of};
ghost use Rattle.world_core.specs.Numbered.{numbered};
ghost use Rattle.world_core.specs.World.{new_world};
ghost use Rattle.world_core.specs.Step.{AtSite, IsIntake, IsSendAt, IsDeliveryOf, IsSave, IsRestart, Step};

use super::event::{Event, Reply, WorldFault};
use super::site::Site;
use lattice_core::NoMemory;
use replica_core::{Front, Replica};
use review_ops::{Draft, Op};
use std::alloc::{Allocator, Global};
use std::marker::Model;

/// How many operations a packet has at most.
const PACKET_LIMIT: usize = 256;

/// Sites that hold replicas, and the packets that they have sent. A packet stays for good: one that is never delivered
/// is lost, one delivered twice is repeated. Contracts see the sites and the packets as lists.
#[derive(Drop)]
pub struct Machine<A: Allocator + Copy = Global> {
    sites: Vec<Site<A>, A>,
    packets: Vec<Vec<Op<A>, A>, A>,
}

impl<A: Allocator + Copy> Model for Machine<A> {
    ghost use Rattle.std.specs.Prelude.{map};
    ghost use Rattle.world_core.specs.World.{WorldState};

    ghost Value = { WorldState };

    ghost view = { λ machine. record { sites = machine.sites.items; packets = map (λ packet. packet.items) machine.packets.items } };
}

impl<A: Allocator + Copy> Machine<A> {
    /// Sites numbered from 1, each with an empty journal, an empty save and start 1, and no packets.
    pub fn new(alloc: A, sites: u16) -> Result<Machine<A>, NoMemory>
        ensures { IfOk result (λ machine. machine ≡ new_world sites) }
    {
        let mut all = Vec::new(alloc);
        for _ in 0..sites {
            all.push(Site::new(alloc))?;
        }
        Ok(Machine {
            sites: all,
            packets: Vec::new(alloc),
        })
    }

    /// The replica of a site, or none where there is no site of that number. It takes no memory.
    pub fn replica(&self, site: u16) -> Option<&Replica<A>>
        ensures { option_copied result ≡ option_map (λ at. at.journal) (numbered self.now.sites site) }
    {
        let place = place_of(site as u64, self.sites.len())?;
        Some(self.sites[place].replica())
    }

    /// The operations of a packet, or none where there is no packet of that number. It takes no memory.
    pub fn packet(&self, number: u64) -> Option<&[Op<A>]>
        ensures { option_copied result ≡ numbered self.now.packets number }
    {
        let place = place_of(number, self.packets.len())?;
        Some(self.packets[place].as_slice())
    }

    /// Lets an event happen.
    pub fn step(&mut self, event: Event<A>) -> Result<Reply, WorldFault>
        ensures { Step self.old event result self.new }
    {
        match event {
            Event::Intake { site, draft } => self.intake(site, draft),
            Event::Send { site, front } => self.send(site, &front),
            Event::Deliver { packet, site } => self.deliver(packet, site),
            Event::Save { site } => self.save(site),
            Event::Restart { site, start } => self.restart(site, start),
        }
    }

    /// A site stamps an operation and takes it.
    fn intake(&mut self, site: u16, draft: Draft<A>) -> Result<Reply, WorldFault>
        ensures { AtSite (IsIntake site (deed_of draft)) site self.old result self.new }
    {
        let Some(place) = place_of(site as u64, self.sites.len()) else {
            return Err(WorldFault::NoSite);
        };
        let at = &mut self.sites[place];
        at.intake(site, draft)
    }

    /// A site packs what a front lacks.
    fn send(&mut self, site: u16, front: &Front<A>) -> Result<Reply, WorldFault>
        ensures { IsSendAt site front.now self.old result self.new }
    {
        let Some(replica) = self.replica(site) else {
            return Err(WorldFault::NoSite);
        };
        let missing = match replica.missing(front, PACKET_LIMIT) {
            Ok(missing) => missing,
            Err(_) => return Err(WorldFault::NoMemory(0)),
        };
        let count = missing.ops.len();
        if self.packets.push(missing.ops).is_err() {
            return Err(WorldFault::NoMemory(0));
        }
        Ok(Reply::Packet {
            number: self.packets.len() as u64,
            count,
            more: missing.more,
        })
    }

    /// A site takes the operations of a packet.
    fn deliver(&mut self, packet: u64, site: u16) -> Result<Reply, WorldFault>
        ensures { AtSite (IsDeliveryOf (numbered self.old.packets packet)) site self.old result self.new }
    {
        let Some(place) = place_of(site as u64, self.sites.len()) else {
            return Err(WorldFault::NoSite);
        };
        let Some(packet) = place_of(packet, self.packets.len()) else {
            return Err(WorldFault::NoPacket);
        };
        let at = &mut self.sites[place];
        at.deliver(self.packets[packet].as_slice())
    }

    /// A site saves its journal.
    fn save(&mut self, site: u16) -> Result<Reply, WorldFault>
        ensures { AtSite IsSave site self.old result self.new }
    {
        let Some(place) = place_of(site as u64, self.sites.len()) else {
            return Err(WorldFault::NoSite);
        };
        let at = &mut self.sites[place];
        at.save();
        Ok(Reply::Saved)
    }

    /// A site goes back to what it saved.
    fn restart(&mut self, site: u16, start: u32) -> Result<Reply, WorldFault>
        ensures { AtSite (IsRestart start) site self.old result self.new }
    {
        let Some(place) = place_of(site as u64, self.sites.len()) else {
            return Err(WorldFault::NoSite);
        };
        let at = &mut self.sites[place];
        at.restart(start)
    }
}

/// Where the thing of this number is among so many, if there is one.
fn place_of(number: u64, count: usize) -> Option<usize>
    ensures { MatchOption result ((number ≡ 0) ⊎ (count < number)) (λ place. (number ≡ place + 1) × (place < count)) }
{
    if number == 0 || number > count as u64 {
        return None;
    }
    Some((number - 1) as usize)
}
