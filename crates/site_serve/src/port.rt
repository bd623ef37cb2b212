//! The running site as a `Port` for sessions and a `Sink` for pulls.

ghost use Rattle.std.specs.Prelude.{◌≡◌, ◌⊎◌, ◌+◌, ◌%◌, ◌^◌, IfOk, OnErr, OnOk, false, true};
ghost use Rattle.std.specs.List.{list_all, list_any};
ghost use Rattle.std.specs.Option.{ForSome};
ghost use Rattle.replica_core.specs.Journal.{has_stamp};
ghost use Rattle.replica_core.specs.JournalLaws.{IsPartOf};
ghost use Rattle.site_port.specs.Ports.{IsLookingFault};
ghost use Rattle.site_serve.specs.InForce.{followed_gate};
ghost use Rattle.site_serve.specs.SitePorts.{HaveStamps, port_fault_of, stamps_of};
ghost use Rattle.site_shared.specs.Accounts.{GoesOn, is_foreign};
ghost use Rattle.site_shared.specs.Publishes.{arrive};

use super::ask::{Answer, Ask, Asker, DeskLink, Puller};
use super::gate_follower::GateFollower;
use super::kept_verdicts::{up_to_date_watch, verdicts_copy};
use super::opening::{OwnWatch, OwnWindow};
use mio::Waker;
use ready_core::Verdicts;
use replica_core::{Front, Missing, Replica};
use review_ops::{Draft, Op, Stamp};
use site_port::{Port, PortFault, Sink, SinkFault};
use site_shared::{BrandedReceipt, DeskFault, Naming, WindowFault};
use std::alloc::{AllocError, Global};
use std::sync::Wait;

/// How many operations are answered at once.
const ANSWER_LIMIT: usize = 256;

/// A worker's view of the site: a window to look through. It takes nothing in: the desk does that.
#[derive(Drop)]
pub struct SitePort<'a, 'g, R: Wait, J: Naming> {
    rt: &'a R,
    alloc: Global,
    follower: GateFollower<'g>,
    window: OwnWindow<J>,
    /// The verdicts of the last report.
    kept: Option<OwnWatch<J>>,
    ghost under_gate: { ForSome kept (λ watch. watch.watch.gate ≡ followed_gate follower) },
}

impl<'a, 'g, R: Wait, J: Naming> SitePort<'a, 'g, R, J> {
    /// The site as it is seen through a window.
    pub fn new(
        rt: &'a R,
        alloc: Global,
        follower: GateFollower<'g>,
        window: OwnWindow<J>,
    ) -> SitePort<'a, 'g, R, J> {
        SitePort {
            rt,
            alloc,
            follower,
            window,
            kept: None,
        }
    }

    /// Switches to the gate that is in force now.
    pub fn follow(&mut self)
        ensures { self.new.window ≡ self.old.window }
    {
        self.follower.follow(self.rt, &mut self.kept);
    }

    /// From now on it sees at least the publish of the receipt. False for a receipt of another opening.
    pub fn learn(&mut self, receipt: &BrandedReceipt<J>) -> bool
        ensures later { GoesOn self.old.window.window self.new.window.window }
        ensures gate { self.new.follower ≡ self.old.follower }
        ensures learnt { result ≡ true → IsPartOf (arrive receipt.now.published) (arrive self.new.window.window.seen) }
    {
        match self.window.learn(receipt) {
            Ok(()) => true,
            Err(_) => false,
        }
    }
}

impl<'a, 'g, R: Wait, J: Naming> Port for SitePort<'a, 'g, R, J> {
    ghost use Rattle.site_serve.specs.InForce.{followed_gate};
    ghost use Rattle.site_serve.specs.SitePorts.{SiteGives};

    ghost gives = { λ old call reply new. SiteGives (followed_gate old.follower) old.window.window call reply new.window.window };

    fn intake(&mut self, _draft: Draft) -> Result<Stamp, PortFault> {
        Err(PortFault::Closed)
    }

    fn missing(&mut self, front: &Front) -> Result<Missing, PortFault> {
        match self.window.missing(front, ANSWER_LIMIT) {
            Ok(missing) => Ok(missing),
            Err(fault) => Err(window_fault(fault)),
        }
    }

    fn report(&mut self) -> Result<Verdicts, PortFault> {
        let watch = match up_to_date_watch(
            self.follower.in_force.gate(),
            &mut self.window,
            self.kept.take(),
        ) {
            Ok(watch) => watch,
            Err(fault) => return Err(window_fault(fault)),
        };
        let verdicts = verdicts_copy(self.alloc, &watch);
        self.kept = Some(watch);
        verdicts.map_err(|_| PortFault::NoMemory)
    }

    fn look(&mut self) -> Result<Replica, PortFault> {
        match self.window.snapshot() {
            Ok(replica) => Ok(replica),
            Err(fault) => Err(window_fault(fault)),
        }
    }
}

/// A pull's view of the site: a window, and a link to the desk. The window has learnt each receipt of the desk.
#[derive(Drop)]
pub struct PullPort<'a, R: Wait, J: Naming> {
    rt: &'a R,
    alloc: Global,
    waker: &'a Waker,
    window: OwnWindow<J>,
    desk_link: DeskLink<J>,
    is_start_taken: bool,
    /// How many times operations were handed over of which at least one was new, modulo 2^64.
    brought: u64,
}

impl<'a, R: Wait, J: Naming> PullPort<'a, R, J> {
    /// The site as a puller sees it.
    pub fn new(
        rt: &'a R,
        alloc: Global,
        waker: &'a Waker,
        puller: Puller<J>,
    ) -> PullPort<'a, R, J> {
        let Puller { window, desk_link } = puller;
        PullPort {
            rt,
            alloc,
            waker,
            window,
            desk_link,
            is_start_taken: false,
            brought: 0,
        }
    }

    /// How many times pulls have handed over operations of which at least one was new, modulo 2^64. A pull that doesn't
    /// change this number has brought nothing new.
    pub fn brought(&self) -> u64
        ensures { result ≡ self.now.brought }
    {
        self.brought
    }

    /// Whether a peer has sent an operation with this site's number, and its start or a later one, that the record
    /// lacks: another process runs as this site.
    pub fn is_start_taken(&self) -> bool
        ensures { result ≡ self.now.is_start_taken }
    {
        self.is_start_taken
    }

    /// Asks the desk, and waits for its answer. None where the desk has ended.
    fn ask(&mut self, ops: Vec<Op>) -> Option<Answer<J>>
        ensures window { self.new.window ≡ self.old.window }
    {
        let ask = Ask::TakeAll {
            asker: Asker::Puller(self.desk_link.puller),
            ops,
        };
        if self.desk_link.asks.send(self.rt, ask).is_err() {
            return None;
        }
        let _woken = self.waker.wake();
        self.desk_link.answers.recv(self.rt).ok()
    }

    /// Refuses operations if one shows that another process runs as this site, and notes that.
    fn bar_foreign(&mut self, ops: &[Op]) -> Result<(), SinkFault>
        ensures later { GoesOn self.old.window.window self.new.window.window }
        ensures ours { OnOk result ((list_any (is_foreign self.old.window.window.site self.old.window.window.start
            (arrive self.new.window.window.seen)) ops.now ≡ false)
            × (self.new.is_start_taken ≡ self.old.is_start_taken)) }
        ensures foreign { OnErr result (((list_any (is_foreign self.old.window.window.site self.old.window.window.start
            (arrive self.new.window.window.seen)) ops.now ≡ true) × (self.new.is_start_taken ≡ true))
            ⊎ ((self.new.window.window ≡ self.old.window.window) × (self.new.is_start_taken ≡ self.old.is_start_taken))) }
        ensures brought { self.new.brought ≡ self.old.brought }
    {
        match self.window.has_foreign(ops) {
            Ok(false) => Ok(()),
            Ok(true) => {
                self.is_start_taken = true;
                Err(SinkFault::Closed)
            }
            Err(fault) => Err(sink_fault(fault)),
        }
    }

    /// Raises `brought` by 1 if the record lacks an operation with one of these stamps.
    fn note_new(&mut self, stamps: &[Stamp]) -> Result<(), SinkFault>
        ensures later { GoesOn self.old.window.window self.new.window.window }
        ensures same { OnOk result (list_all (has_stamp (arrive self.new.window.window.seen)) stamps.now ≡ true
            → self.new.brought ≡ self.old.brought) }
        ensures noted { OnOk result (list_all (has_stamp (arrive self.new.window.window.seen)) stamps.now ≡ false
            → self.new.brought ≡ (self.old.brought + 1) % 2 ^ 64) }
        ensures taken { self.new.is_start_taken ≡ self.old.is_start_taken }
    {
        match self.window.has_stamps(stamps) {
            Ok(are_there) => {
                if !are_there {
                    self.brought = self.brought.wrapping_add(1);
                }
                Ok(())
            }
            Err(fault) => Err(sink_fault(fault)),
        }
    }

    /// Sees no less than a publish, which has to have an operation with each of these stamps.
    fn see_taken(&mut self, receipt: &BrandedReceipt<J>, stamps: &[Stamp]) -> Result<(), SinkFault>
        ensures later { GoesOn self.old.window.window self.new.window.window }
        ensures seen { OnOk result (HaveStamps (arrive self.new.window.window.seen) stamps.now) }
    {
        let _own = self.window.learn(receipt);
        match self.window.has_stamps(stamps) {
            Ok(true) => Ok(()),
            Ok(false) => Err(SinkFault::Closed),
            Err(fault) => Err(sink_fault(fault)),
        }
    }
}

impl<'a, R: Wait, J: Naming> Sink for PullPort<'a, R, J> {
    ghost use Rattle.site_serve.specs.SitePorts.{SiteSinks};

    ghost sinks = { λ old offer uptake new. SiteSinks old.window.window offer uptake new.window.window };

    fn front(&mut self) -> Result<Front, SinkFault> {
        match self.window.front() {
            Ok(front) => Ok(front),
            Err(fault) => Err(sink_fault(fault)),
        }
    }

    fn latest_time(&mut self) -> Result<u64, SinkFault> {
        match self.window.latest_time() {
            Ok(latest) => Ok(latest),
            Err(fault) => Err(sink_fault(fault)),
        }
    }

    fn take_all(&mut self, ops: Vec<Op>) -> Result<(), SinkFault> {
        self.bar_foreign(ops.as_slice())?;
        let stamps = match stamps_in(self.alloc, ops.as_slice()) {
            Ok(stamps) => stamps,
            Err(_) => return Err(SinkFault::NoMemory),
        };
        match self.note_new(stamps.as_slice()) {
            Ok(()) => {}
            Err(fault) => return Err(fault),
        }
        let done = match self.ask(ops) {
            Some(Ok(done)) => done,
            Some(Err(_)) => return Err(SinkFault::NoMemory),
            None => return Err(SinkFault::Closed),
        };
        match self.see_taken(&done.receipt, stamps.as_slice()) {
            Ok(()) => Ok(()),
            Err(fault) => Err(fault),
        }
    }
}

/// The port's fault for a fault of the desk.
pub fn desk_fault(fault: DeskFault) -> PortFault
    ensures { result ≡ port_fault_of fault }
{
    match fault {
        DeskFault::ClockSpent => PortFault::ClockSpent,
        DeskFault::BadBody(cause) => PortFault::BadBody(cause),
        DeskFault::NoMemory(_) => PortFault::NoMemory,
    }
}

/// The port's fault for a fault of the window.
fn window_fault(fault: WindowFault) -> PortFault
    ensures { IsLookingFault result }
{
    match fault {
        WindowFault::NoMemory => PortFault::NoMemory,
        WindowFault::Closed => PortFault::Closed,
    }
}

/// The sink's fault for a fault of the window.
fn sink_fault(fault: WindowFault) -> SinkFault {
    match fault {
        WindowFault::NoMemory => SinkFault::NoMemory,
        WindowFault::Closed => SinkFault::Closed,
    }
}

/// The stamps of operations, in their order.
fn stamps_in(alloc: Global, ops: &[Op]) -> Result<Vec<Stamp>, AllocError>
    ensures { IfOk result (λ stamps. stamps.items ≡ stamps_of ops.now) }
{
    let mut stamps = Vec::with_capacity(alloc, ops.len())?;
    for op in ops {
        stamps.push(op.stamp())?;
    }
    Ok(stamps)
}
