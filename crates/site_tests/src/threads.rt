//! Running sites, by several threads.

ghost use Rattle.std.specs.Prelude.{◌≡◌};
ghost use Rattle.site_shared.specs.Accounts.{watching};

use super::asserts::assert_found;
use super::running::{GATE, ROW, open_two, patch_set};
use crossbeam_channel::{Receiver, Sender, unbounded};
use gate_rules::Gate;
use replica_core::Replica;
use review_ops::Stamp;
use site_shared::{BrandedReceipt, Desk, Naming, Pause, Window};
use std::alloc::Global;
use std::marker::{Brand, PhantomData};
use std::process::Abort;
use std::sync::atomic::{AtomicBool, Ordering};
use std::sync::{Arc, Wait};
use std::test::Fail;
use std::thread;
use std::thread::{Threads, join};

/// Waits until another window has answered, and counts its turns.
#[derive(Drop)]
struct Until<'a> {
    answered: &'a AtomicBool,
    asked: u32,
}

impl Pause for Until<'_> {
    fn held(&mut self) -> bool {
        thread::yield_now();
        self.asked = self.asked.saturating_add(1);
        !self.answered.load(Ordering::SeqCst)
    }
}

/// How many items a report leaves out that is held until the other window has answered, and in how many turns.
fn report_held(mut window: Window, gate: &Gate, answered: &AtomicBool) -> Option<(usize, u32)> {
    let mut pause = Until { answered, asked: 0 };
    let verdicts = window.report_with(gate, &mut pause).ok()?;
    Some((verdicts.out().len(), pause.asked))
}

/// What both windows found: how many items are left out, whether that took fewer turns than there are, and whether the
/// stamp is seen.
fn found_by(looks: (Option<(usize, u32)>, Option<bool>)) -> Option<(usize, bool, bool)> {
    let (out, asked) = looks.0?;
    Some((out, asked < 1_000_000, looks.1?))
}

/// Whether a window sees a stamp while the other one is held.
fn answer(mut window: Window, stamp: Stamp, answered: &AtomicBool) -> Option<bool> {
    let found = window.has(stamp).ok();
    answered.store(true, Ordering::SeqCst);
    found
}

#[test]
fn a_window_answers_while_another_is_held(rt: HostRuntime) -> Result<(), Fail> {
    let gate = Gate::read(rt.alloc(), GATE)?;
    let (mut desk, first, second) = open_two(&rt, 1, 1, Replica::new(rt.alloc()))?;
    let stamp = intake_one(&rt, rt.alloc(), &mut desk);
    let answered = AtomicBool::new(false);
    let looks = match stamp {
        Some(stamp) => join(
            &rt,
            || report_held(first, &gate, &answered),
            || answer(second, stamp, &answered),
        ),
        None => (None, None),
    };
    desk.end(&rt);
    assert_found(&rt, found_by(looks), Some((1, true, true)));
    Ok(())
}

/// The stamp of a patch set that is published.
fn intake_one<R: Wait>(rt: &R, alloc: Global, desk: &mut Desk) -> Option<Stamp> {
    desk.intake(rt, patch_set(alloc, 101).ok()?).ok()?.stamp()
}

/// A window of the opening that its type names.
#[derive(Drop)]
struct Seat<J: Naming> {
    window: Window,
    of: PhantomData<J>,
    ghost ours: { window.book ≡ J.book },
}

impl<J: Naming> Seat<J> {
    fn new(window: Window) -> Seat<J>
        requires { window.book ≡ J.book }
    {
        Seat {
            window,
            of: PhantomData,
        }
    }

    /// How far the row goes once a receipt was learnt. None where its stamp isn't seen, or a call is refused.
    fn learnt(&mut self, receipt: &BrandedReceipt<J>) -> Option<u64> {
        self.window.learn(receipt.receipt()).ok()?;
        let stamp = receipt.receipt().stamp()?;
        if !self.window.has(stamp).ok()? {
            return None;
        }
        Some(self.window.front().ok()?.reach(ROW))
    }
}

/// How far the row goes at the end, for a window that learns each receipt, and never sees less than before.
fn watch<J: Naming, R: Wait>(
    rt: &R,
    seat: Seat<J>,
    receipts: Receiver<Arc<BrandedReceipt<J>>>,
) -> Option<u64> {
    let mut seat = seat;
    let mut last = 0;
    for _ in rt.forever() {
        let Ok(receipt) = receipts.recv(rt) else {
            break;
        };
        let row = seat.learnt(&receipt)?;
        if row < last {
            return None;
        }
        last = row;
    }
    Some(last)
}

/// A desk of the opening that its type names.
struct Station<J: Naming> {
    desk: Desk,
    of: PhantomData<J>,
    ghost ours: { desk.book ≡ J.book },
}

impl<J: Naming> Station<J> {
    fn new(desk: Desk) -> Station<J>
        requires { desk.book ≡ J.book }
    {
        Station {
            desk,
            of: PhantomData,
        }
    }

    /// Takes in the first patch set of a change.
    fn intake<R: Wait>(&mut self, rt: &R, alloc: Global, change: u32) -> Option<BrandedReceipt<J>> {
        let receipt = self.desk.intake(rt, patch_set(alloc, change).ok()?).ok()?;
        Some(BrandedReceipt::new(receipt))
    }

    fn end<R: Wait>(self, rt: &R) {
        let Station { desk, of: _ } = self;
        desk.end(rt);
    }
}

/// Tells both windows of each of 100 intakes. None where a call is refused.
fn tell_all<J: Naming, R: Wait>(
    rt: &R,
    alloc: Global,
    station: &mut Station<J>,
    to_one: Sender<Arc<BrandedReceipt<J>>>,
    to_two: Sender<Arc<BrandedReceipt<J>>>,
) -> Option<()> {
    for change in 1..=100 {
        let receipt = Arc::new(alloc, station.intake(rt, alloc, change)?).ok()?;
        to_one.send(rt, Arc::try_clone(&receipt).ok()?).ok()?;
        to_two.send(rt, receipt).ok()?;
    }
    Some(())
}

/// How far two windows see at the end, which learn of 100 intakes from the thread of the desk.
fn tell_two<J: Naming + Send + Sync, R: Threads + Wait + Sync>(
    rt: &R,
    alloc: Global,
    station: &mut Station<J>,
    one: Seat<J>,
    two: Seat<J>,
) -> Option<(u64, u64)> {
    let (to_one, from_one) = unbounded(alloc).ok()?;
    let (to_two, from_two) = unbounded(alloc).ok()?;
    thread::scope(
        thread::scope_env(),
        rt,
        move |scope| -> Option<(u64, u64)> {
            let first = scope.spawn(move || watch(rt, one, from_one)).ok()?;
            let second = scope.spawn(move || watch(rt, two, from_two)).ok()?;
            let receipt = tell_all(rt, alloc, station, to_one, to_two);
            let rows = (first.join(rt)?, second.join(rt)?);
            receipt.map(|()| rows)
        },
    )
}

/// The same, of a desk and two windows of one opening.
fn hundred<J: Naming + Send + Sync, R: Threads + Wait + Sync>(
    rt: &R,
    alloc: Global,
    desk: Desk,
    first: Window,
    second: Window,
) -> Option<(u64, u64)>
    requires desk { desk.book ≡ J.book }
    requires windows { (first.book ≡ J.book) × (second.book ≡ J.book) }
{
    let mut station: Station<J> = Station::new(desk);
    let rows = tell_two(rt, alloc, &mut station, Seat::new(first), Seat::new(second));
    station.end(rt);
    rows
}

#[test]
fn two_windows_learn_of_a_hundred_intakes(rt: HostRuntime) -> Result<(), Fail> {
    let (desk, first, second) = open_two(&rt, 1, 1, Replica::new(rt.alloc()))?;
    let rows = hundred::<Brand, _>(&rt, rt.alloc(), desk, first, second);
    assert_found(&rt, rows, Some((100, 100)));
    Ok(())
}
