//! What may happen in a world, what it answers, and why it changes nothing.

ghost use Rattle.std.specs.Prelude.{◌≡◌};
ghost use Rattle.world_core.specs.Fault.{number_of, name_of};

use replica_core::Front;
use review_ops::{BodyFault, Draft, Stamp};
use std::alloc::{Allocator, Global};
use thiserror::Error;

/// What may happen in a world.
#[derive(Drop)]
pub enum Event<A: Allocator + Copy = Global> {
    /// A site stamps an operation with this body and takes it.
    Intake { site: u16, draft: Draft<A> },
    /// A site packs what this front lacks: the first 256 operations of it.
    Send { site: u16, front: Front<A> },
    /// A site takes the operations of a packet.
    Deliver { packet: u64, site: u16 },
    /// A site saves its journal, which takes no memory.
    Save { site: u16 },
    /// A site goes back to the journal that it saved last, or to the empty one, under a new start.
    Restart { site: u16, start: u32 },
}

/// What an event answers.
#[derive(Clone, Copy, Debug, PartialEq, Eq)]
pub enum Reply {
    /// The operation that an intake stamped and took has this stamp.
    Took(Stamp),
    /// The packet's number, from 1 on, how many operations it has, and whether others are left.
    Packet {
        number: u64,
        count: usize,
        more: bool,
    },
    /// How many operations of the packet were new to the site.
    Delivered(usize),
    /// The journal is saved.
    Saved,
    /// The site runs under the new start.
    Restarted,
}

/// Why an event changed nothing, but for `NoMemory`.
#[derive(Clone, Copy, Debug, PartialEq, Eq, Error)]
pub enum WorldFault {
    /// There is no site of that number.
    #[error("no such site")]
    NoSite,
    /// There is no packet of that number.
    #[error("no such packet")]
    NoPacket,
    /// The start isn't above all earlier ones of the site.
    #[error("the start isn't above all earlier ones")]
    StartUsed,
    /// No stamp is left.
    #[error("no stamp is left")]
    ClockSpent,
    /// The body is refused.
    #[error("bad body: {0}")]
    BadBody(BodyFault),
    /// Memory was refused. A delivery has taken the first operations of its packet, as many as this says.
    #[error("no memory")]
    NoMemory(usize),
}

impl WorldFault {
    /// The number that is printed.
    pub fn number(&self) -> u8
        ensures { result ≡ number_of self.now }
    {
        match self {
            WorldFault::NoSite => 1,
            WorldFault::NoPacket => 2,
            WorldFault::StartUsed => 3,
            WorldFault::ClockSpent => 4,
            WorldFault::BadBody(_) => 5,
            WorldFault::NoMemory(_) => 6,
        }
    }

    /// The name that is printed.
    pub fn name(&self) -> &'static str
        ensures { result.now ≡ name_of self.now }
    {
        match self {
            WorldFault::NoSite => "NoSite",
            WorldFault::NoPacket => "NoPacket",
            WorldFault::StartUsed => "StartUsed",
            WorldFault::ClockSpent => "ClockSpent",
            WorldFault::BadBody(_) => "BadBody",
            WorldFault::NoMemory(_) => "NoMemory",
        }
    }
}
