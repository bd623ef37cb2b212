//! The windows: readers of a running site.

ghost use Rattle.std.specs.Prelude.{◌≡◌, ◌⊎◌, ◌<◌, ◌↔◌, List, Err, IfErr, IfNone, IfOk, IfSome, IsOk, MatchBool};
ghost use Rattle.std.specs.Prelude.{MatchResult, OnErr, OnOk, Some, length, nat_lt, take, true};
ghost use Rattle.std.specs.Arc.{arc_value};
ghost use Rattle.std.specs.List.{list_all, list_any};
ghost use mathlib.Core.List.{IsPrefix};
ghost use Rattle.left_right.specs.Sides.{view};
ghost use Rattle.ready_core.specs.Verdicts.{AreVerdicts};
ghost use Rattle.replica_core.specs.Clock.{greatest, times};
ghost use Rattle.replica_core.specs.Front.{IsFront};
ghost use Rattle.replica_core.specs.Journal.{has_stamp};
ghost use Rattle.replica_core.specs.Missing.{IsMissing};
ghost use Rattle.review_ops.specs.Operation.{Operation};
ghost use Rattle.site_shared.specs.Accounts.{is_foreign};
ghost use Rattle.site_shared.specs.Pauses.{Pauses};
ghost use Rattle.site_shared.specs.Publishes.{arrive};
ghost use Rattle.state_core.specs.State.{state_of};

use crate::fault::{RefreshFault, Stranger, WindowFault};
use crate::pause::{AtOnce, Pause, hold};
use crate::receipt::Receipt;
use crate::showing::{Glass, Look, Sees, Show, TakesIn, Tells};
use crate::sight::Sight;
use crate::viewer::Viewer;
use crate::watch::Watch;
use gate_rules::Gate;
use pull_guard::latest_time;
use ready_core::{Verdicts, evaluate};
use replica_core::{Front, Missing, Replica};
use review_ops::{Op, Stamp};
use std::alloc::AllocError;
use std::marker::Model;
use std::sync::Arc;
use watch_core::Evaluator;

/// A reader of a running site, for one thread, beside the desk and the other windows. It never waits for them. Each
/// look is at one moment: at a prefix of the publishes, which goes on from all that the window has seen and learnt
/// before. Contracts see that prefix.
#[derive(Drop)]
pub struct Window {
    glass: Option<Glass>,
    sight: Sight,
    site: u16,
    start: u32,
}

impl Model for Window {
    ghost use Rattle.std.specs.Prelude.{IfSome};
    ghost use Rattle.left_right.specs.Sides.{view as known_at};
    ghost use Rattle.site_shared.specs.Accounts.{Outlook};
    ghost use Rattle.site_shared.specs.Showing.{Knows};

    ghost Value = { Outlook };

    ghost view = { λ w. record { book = w.sight.seen.book; seen = w.sight.seen.log; site = w.site; start = w.start } };

    ghost invariant = { λ w. IfSome w.glass (λ glass. Knows w.sight.seen.book (known_at glass.place)) };
}

impl Window {
    ghost use Rattle.site_shared.specs.Accounts.{GoesOn, BearsOwn, Outlook};
    ghost use Rattle.site_shared.specs.Showing.{Knows};
    ghost use Rattle.site_shared.specs.Watches.{IsOwnWatch, IsSameWatch, IsShownTo, IsWatchOf, Refreshes};
    ghost use Rattle.site_shared.specs.Watches.{RefusesRefresh};
    ghost use Rattle.site_shared.specs.declared.fault.WindowFault.TheVariants.{Closed};

    /// A window that has seen what the desk has seen.
    pub(crate) fn new(
        show: &mut Show,
        sight: &Sight,
        site: u16,
        start: u32,
    ) -> Result<Window, AllocError>
        requires { view show.old.desk.place ≡ Some sight.now.seen }
        ensures told { view show.new.desk.place ≡ Some sight.now.seen }
        ensures kept { (show.new.desk.shown ≡ show.old.desk.shown) × (show.new.log ≡ show.old.log)
            × (show.new.behind ≡ show.old.behind) }
        ensures ok { IfOk result
            (λ w. w ≡ record { book = sight.now.seen.book; seen = sight.now.seen.log; site = site; start = start }) }
    {
        let mut glass = show.factory().reader()?;
        let note = show.tell::<Tells>();
        glass.learn::<TakesIn>(note);
        Ok(Window {
            glass: Some(glass),
            sight: sight.again(),
            site,
            start,
        })
    }

    /// Takes in a receipt: from now on the window sees no less than the publish that it was answered for. A receipt
    /// with the window's own site and start comes from the window's opening; any other one is refused. Takes no memory.
    pub fn learn(&mut self, receipt: &Receipt) -> Result<(), Stranger>
        requires { BearsOwn self.old receipt.now → receipt.now.book ≡ self.old.book }
        ensures own { IsOk result ↔ BearsOwn self.old receipt.now }
        ensures ok { OnOk result (GoesOn self.old self.new × IsPrefix receipt.now.published self.new.seen
            × ((self.new.seen ≡ self.old.seen) ⊎ (self.new.seen ≡ receipt.now.published))) }
        ensures err { OnErr result (self.new ≡ self.old) }
    {
        if receipt.origin() != (self.site, self.start) {
            return Err(Stranger);
        }
        self.sight = self.sight.longer(receipt.sight());
        Ok(())
    }

    /// Whether this window has seen all that another one of its opening has. What one of the two has seen begins what
    /// the other has: they see one list.
    pub fn covers(&self, other: &Window) -> bool
        requires { other.now.book ≡ self.now.book }
        ensures one { MatchBool result (IsPrefix other.now.seen self.now.seen) (IsPrefix self.now.seen other.now.seen) }
        ensures all { IsPrefix other.now.seen self.now.seen → result ≡ true }
    {
        self.sight.covers(&other.sight)
    }

    /// Which items are ready, and why each other one isn't. It costs what `evaluate` does, for which the desk doesn't
    /// wait.
    pub fn report(&mut self, gate: &Gate) -> Result<Verdicts, WindowFault>
        ensures later { GoesOn self.old self.new }
        ensures verdicts { IfOk result (AreVerdicts gate.now (state_of (arrive self.new.seen))) }
        ensures closed { result ≡ Err Closed → self.new ≡ self.old }
    {
        self.report_with(gate, &mut AtOnce)
    }

    /// As `report`, with a pause: the window enters, asks the pause until it answers false, at most 1,000,000 times,
    /// and then judges what it entered at.
    pub fn report_with<P: Pause>(
        &mut self,
        gate: &Gate,
        pause: &mut P,
    ) -> Result<Verdicts, WindowFault>
        ensures later { GoesOn self.old self.new }
        ensures verdicts { IfOk result (AreVerdicts gate.now (state_of (arrive self.new.seen))) }
        ensures paused { ¬ (result ≡ Err Closed) → Pauses P.turns 1000000 pause.old pause.new }
        ensures closed { result ≡ Err Closed → (self.new ≡ self.old) × (pause.new ≡ pause.old) }
    {
        let Some(look) = self.enter() else {
            return Err(WindowFault::Closed);
        };
        hold(pause);
        let replica = Arc::try_clone(&look.get().replica);
        self.leave(look);
        let Ok(replica) = replica else {
            return Err(WindowFault::NoMemory);
        };
        let verdicts = evaluate(replica.allocator(), replica.state(), gate);
        verdicts.map_err(|_| WindowFault::NoMemory)
    }

    /// The verdicts under a gate on what the window sees, which `refresh` brings up to date. It costs what `evaluate`
    /// does, for which the desk doesn't wait.
    pub fn watch(&mut self, gate: Gate) -> Result<Watch, WindowFault>
        ensures later { GoesOn self.old self.new }
        ensures ok { IfOk result (IsWatchOf gate self.new) }
        ensures closed { result ≡ Err Closed → self.new ≡ self.old }
    {
        let Some(look) = self.enter() else {
            return Err(WindowFault::Closed);
        };
        let replica = Arc::try_clone(&look.get().replica);
        self.leave(look);
        let Ok(replica) = replica else {
            return Err(WindowFault::NoMemory);
        };
        let Ok(evaluator) = Evaluator::fresh(gate, &replica) else {
            return Err(WindowFault::NoMemory);
        };
        let sight = self.sight.again();
        Ok(Watch::new(evaluator, sight, self.site, self.start))
    }

    /// Brings a watch up to date with what the window sees, which is then no less than what the watch saw. A watch with
    /// the window's own site and start comes from the window's opening; any other one is refused. Memory is refused
    /// only where something new came, or the watch has no verdicts. It costs what `Evaluator::update` does, over one
    /// look, without a copy of the replica.
    pub fn refresh(&mut self, watch: &mut Watch) -> Result<(), RefreshFault>
        requires { IsOwnWatch self.old watch.old → watch.old.book ≡ self.old.book }
        ensures later { GoesOn self.old self.new }
        ensures same { IsSameWatch watch.old watch.new }
        ensures refreshed { MatchResult result (λ _. Refreshes self.old watch.old self.new watch.new)
            (λ fault. RefusesRefresh self.old watch.old fault self.new watch.new) }
    {
        if !self.is_own(watch) {
            return Err(RefreshFault::Stranger);
        }
        let Some(look) = self.enter_from(watch.sight()) else {
            return Err(RefreshFault::Closed);
        };
        let followed = watch.follow(&look.get().replica, &self.sight);
        self.leave(look);
        match followed {
            Ok(()) => Ok(()),
            Err(_) => Err(RefreshFault::NoMemory),
        }
    }

    /// Brings a watch up to date as `refresh` does, and shows what the window sees, with the verdicts on just that, to
    /// a viewer, within the same look. Where it is refused nothing is shown.
    pub fn show<V: Viewer>(&mut self, watch: &mut Watch, viewer: &mut V) -> Result<(), RefreshFault>
        requires own { IsOwnWatch self.old watch.old → watch.old.book ≡ self.old.book }
        requires gate { watch.old.gate ≡ V.judged_by viewer.old }
        ensures later { GoesOn self.old self.new }
        ensures same { IsSameWatch watch.old watch.new }
        ensures refreshed { MatchResult result (λ _. Refreshes self.old watch.old self.new watch.new)
            (λ fault. RefusesRefresh self.old watch.old fault self.new watch.new) }
        ensures shown { OnOk result (IsShownTo (V.views viewer.old) (arrive self.new.seen) watch.new viewer.new) }
        ensures unseen { OnErr result (viewer.new ≡ viewer.old) }
    {
        if !self.is_own(watch) {
            return Err(RefreshFault::Stranger);
        }
        let Some(look) = self.enter_from(watch.sight()) else {
            return Err(RefreshFault::Closed);
        };
        let followed = watch.follow(&look.get().replica, &self.sight);
        if followed.is_ok() {
            watch.show_to(&look.get().replica, viewer);
        }
        self.leave(look);
        match followed {
            Ok(()) => Ok(()),
            Err(_) => Err(RefreshFault::NoMemory),
        }
    }

    /// Whether a watch has the window's own site and start.
    fn is_own(&self, watch: &Watch) -> bool
        ensures { MatchBool result (IsOwnWatch self.now watch.now) (¬ IsOwnWatch self.now watch.now) }
    {
        watch.origin() == (self.site, self.start)
    }

    /// Whether the journal has an operation with this stamp. It takes no memory, and costs O(log r + log n) for r rows
    /// and n operations of its row.
    pub fn has(&mut self, stamp: Stamp) -> Result<bool, WindowFault>
        ensures later { GoesOn self.old self.new }
        ensures ok { IfOk result (λ found. found ≡ has_stamp (arrive self.new.seen) stamp) }
        ensures closed { IfErr result (λ fault. (fault ≡ Closed) × (self.new ≡ self.old)) }
    {
        let Some(look) = self.enter() else {
            return Err(WindowFault::Closed);
        };
        let found = look.get().replica.has_stamp(stamp);
        self.leave(look);
        Ok(found)
    }

    /// Whether the journal has, for each of these stamps, an operation with it. It takes no memory, and costs
    /// O(log r + log n) for each stamp, for r rows and n operations of its row.
    pub fn has_stamps(&mut self, stamps: &[Stamp]) -> Result<bool, WindowFault>
        ensures later { GoesOn self.old self.new }
        ensures ok { IfOk result (λ found. found ≡ list_all (has_stamp (arrive self.new.seen)) stamps.now) }
        ensures closed { IfErr result (λ fault. (fault ≡ Closed) × (self.new ≡ self.old)) }
    {
        let Some(look) = self.enter() else {
            return Err(WindowFault::Closed);
        };
        let found = has_each(&look.get().replica, stamps);
        self.leave(look);
        Ok(found)
    }

    /// Whether one of the operations has the window's own site, and its start or a later one, and isn't in the journal:
    /// then another process runs as this site. It takes no memory, and costs O(log r + log n) for each operation, for r
    /// rows and n operations of its row.
    pub fn has_foreign(&mut self, ops: &[Op]) -> Result<bool, WindowFault>
        ensures later { GoesOn self.old self.new }
        ensures ok { IfOk result
            (λ found. found ≡ list_any (is_foreign self.old.site self.old.start (arrive self.new.seen)) ops.now) }
        ensures closed { IfErr result (λ fault. (fault ≡ Closed) × (self.new ≡ self.old)) }
    {
        let (site, start) = (self.site, self.start);
        let Some(look) = self.enter() else {
            return Err(WindowFault::Closed);
        };
        let found = is_any_foreign(&look.get().replica, ops, site, start);
        self.leave(look);
        Ok(found)
    }

    /// The greatest time of the journal's operations, or 0 where it has none. It takes no memory, and costs what
    /// `pull_guard::latest_time` does.
    pub fn latest_time(&mut self) -> Result<u64, WindowFault>
        ensures later { GoesOn self.old self.new }
        ensures ok { IfOk result (λ latest. latest ≡ greatest (times (arrive self.new.seen))) }
        ensures closed { IfErr result (λ fault. (fault ≡ Closed) × (self.new ≡ self.old)) }
    {
        let Some(look) = self.enter() else {
            return Err(WindowFault::Closed);
        };
        let latest = latest_time(&look.get().replica);
        self.leave(look);
        Ok(latest)
    }

    /// How far the journal goes without a gap. It costs O(n log n) for n pairs of a site and a start.
    pub fn front(&mut self) -> Result<Front, WindowFault>
        ensures later { GoesOn self.old self.new }
        ensures ok { IfOk result (IsFront (arrive self.new.seen)) }
        ensures closed { result ≡ Err Closed → self.new ≡ self.old }
    {
        let Some(look) = self.enter() else {
            return Err(WindowFault::Closed);
        };
        let front = look.get().replica.front();
        self.leave(look);
        front.map_err(|_| WindowFault::NoMemory)
    }

    /// Copies of the operations that a front lacks, by site, start, sequence number, time and body: the first `limit`
    /// of them. It costs what `Replica::missing` does.
    pub fn missing(&mut self, front: &Front, limit: usize) -> Result<Missing, WindowFault>
        ensures later { GoesOn self.old self.new }
        ensures ok { IfOk result (λ missing. (all : List Operation) × IsMissing (arrive self.new.seen) front.now all
            × (missing.ops.items ≡ take limit all) × (missing.more ≡ nat_lt limit (length all))) }
        ensures closed { result ≡ Err Closed → self.new ≡ self.old }
    {
        let Some(look) = self.enter() else {
            return Err(WindowFault::Closed);
        };
        let missing = look.get().replica.missing(front, limit);
        self.leave(look);
        missing.map_err(|_| WindowFault::NoMemory)
    }

    /// A copy of the replica: the opening's arrivals, and then those of each publish, in its order. It costs what
    /// `Replica::copy` does.
    pub fn snapshot(&mut self) -> Result<Replica, WindowFault>
        ensures later { GoesOn self.old self.new }
        ensures ok { IfOk result (λ copied. copied ≡ arrive self.new.seen) }
        ensures closed { result ≡ Err Closed → self.new ≡ self.old }
    {
        let Some(look) = self.enter() else {
            return Err(WindowFault::Closed);
        };
        let copied = look.get().replica.copy();
        self.leave(look);
        copied.map_err(|_| WindowFault::NoMemory)
    }

    /// Takes what is shown. None where the desk has ended, and where less is shown than was learnt, which no desk does.
    fn enter(&mut self) -> Option<Look>
        ensures some { IfSome result
            (λ look. (look.part.value.sight.seen.log ≡ self.new.seen) × Knows self.new.book (view look.place)) }
        ensures later { GoesOn self.old self.new }
        ensures none { IfNone result (self.new ≡ self.old) }
    {
        match self.glass.take()?.enter_as::<Sees>() {
            Ok(look) => {
                if look.get().sight.covers(&self.sight) {
                    self.sight = look.get().sight.again();
                    return Some(look);
                }
                self.glass = Some(look.leave());
                None
            }
            Err(glass) => {
                self.glass = Some(glass);
                None
            }
        }
    }

    /// Takes what is shown, which goes on from what a sight of the opening has seen, too.
    fn enter_from(&mut self, sight: &Sight) -> Option<Look>
        requires { sight.now.seen.book ≡ self.old.book }
        ensures some { IfSome result
            (λ look. (look.part.value.sight.seen.log ≡ self.new.seen) × Knows self.new.book (view look.place)) }
        ensures no_less { IfSome result (λ _. IsPrefix sight.now.seen.log self.new.seen) }
        ensures later { GoesOn self.old self.new }
        ensures none { IfNone result (self.new ≡ self.old) }
    {
        let before = self.sight.again();
        self.sight = before.longer(sight);
        let Some(look) = self.enter() else {
            self.sight = before;
            return None;
        };
        Some(look)
    }

    /// Ends a look.
    fn leave(&mut self, look: Look)
        requires { Knows self.old.book (view look.place) }
        ensures { self.new ≡ self.old }
    {
        self.glass = Some(look.leave());
    }
}

/// Whether one of the operations has the site, and the start or a later one, and isn't in the replica.
fn is_any_foreign(replica: &Replica, ops: &[Op], site: u16, start: u32) -> bool
    ensures { result ≡ list_any (is_foreign site start replica.now) ops.now }
{
    ops.iter().any(|op| {
        op.stamp().site() == site && start <= op.stamp().start() && !replica.has(op)
    })
}

/// Whether the replica has, for each of these stamps, an operation with it.
fn has_each(replica: &Replica, stamps: &[Stamp]) -> bool
    ensures { result ≡ list_all (has_stamp replica.now) stamps.now }
{
    stamps.iter().all(|stamp| replica.has_stamp(*stamp))
}
