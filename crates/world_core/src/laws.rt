//! Laws of worlds, each the promise of a function that does nothing.
ghost use Rattle.std.specs.Prelude.{◌≡◌, ℕ, false, List, Some, Ok, IfSome};
ghost use Rattle.replica_core.specs.Front.{Reaches, IsFront};
ghost use Rattle.world_core.specs.declared.event.Event.{Event};
ghost use Rattle.world_core.specs.Convergence.{Converges, MayBecome};
ghost use Rattle.replica_core.specs.JournalLaws.{IsPartOf};
ghost use Rattle.world_core.specs.Numbered.{numbered};
ghost use Rattle.world_core.specs.Step.{Answer, AtSite, IsDeliveryOf, IsSendAt, Run};
ghost use Rattle.world_core.specs.World.{SiteState, WorldState, new_world};

use super::event::Reply;
use std::alloc::Allocator;

/// Worlds converge: for every list of intakes, sends, deliveries, saves and restarts, whatever was lost, came again or
/// in another order, and whatever memory was refused, each site's journal is just what came to it, its state is the
/// state of that, and sites to which the same operations came have equal states. No two stamps are of one site, start
/// and sequence number, and every operation of a site or a packet is one that an intake made.
pub fn worlds_converge<A: Allocator + Copy>()
    ensures { (sites : ℕ) (events : List (Event A)) (answers : List Answer) (world : WorldState)
        → Run (new_world sites) events answers world → Converges events answers world }
{}

/// Packets pass on what a site lacks: where a site sends what the front of another lacked at some moment, the packet
/// says that nothing is left, and the other takes the whole of it, then the other has from there on all that the sender
/// had when it sent, as long as it runs under the start that it had at that moment. It may restart before or after, and
/// anything else may happen between.
pub fn packets_pass_on_what_is_lacked<A: Allocator + Copy>()
    ensures { (sites sender receiver number count new : ℕ) (front : Reaches)
        (moment before sent comes delivered last : WorldState) (to from : SiteState)
        → MayBecome A (new_world sites) moment
        → numbered moment.sites receiver ≡ Some to → IsFront to.journal front
        → MayBecome A moment before
        → numbered before.sites sender ≡ Some from
        → IsSendAt sender front before (Ok (Reply.Packet number count false)) sent
        → MayBecome A sent comes
        → AtSite (IsDeliveryOf (numbered comes.packets number)) receiver comes (Ok (Reply.Delivered new)) delivered
        → MayBecome A delivered last
        → IfSome (numbered last.sites receiver) (λ at. at.start ≡ to.start → IsPartOf from.journal at.journal) }
{}
