//! Running sites, by one thread.

ghost use Rattle.std.specs.Prelude.{◌≡◌, IfOk};
ghost use Rattle.site_shared.specs.Accounts.{GoesOn, BearsOwn, watching};

use super::asserts::assert_found;
use gate_rules::Gate;
use ready_core::Refusal;
use replica_core::{Front, Replica, Row};
use review_ops::{Body, BodyFault, Draft, Op, Stamp};
use site_shared::{
    Desk, DeskFault, OpenFault, Pause, Receipt, Stranger, Window, WindowFault,
    later_journals_go_on, open_site, publishes_are_steps, stamps_are_above_all,
};
use std::alloc::{AllocError, Global};
use std::process::Abort;
use std::sync::Wait;
use std::test::Fail;

/// A gate that wants a workflow vote on an open change.
pub const GATE: &[u8] =
    br#"{"bases":["https://review.example.org/"],"require":{"gerrit":{"open":true,"approval":[{"Workflow":1}]}}}"#;

/// The row of site 1 under start 1.
pub const ROW: Row = Row { site: 1, start: 1 };

/// The first patch set of a change.
pub fn patch_set(alloc: Global, change: u32) -> Result<Draft, AllocError> {
    let message = String::from_str(alloc, "m")?;
    Ok(Draft::PatchSet {
        change,
        set: 1,
        message,
        parent: None,
    })
}

/// A merge that another site stamped, with a time that is its sequence number, too.
pub fn merge(site: u16, start: u32, seq: u64) -> Result<Op, Fail> {
    let stamp = Stamp::new(seq, site, start, seq).ok_or("a stamp")?;
    Ok(Op::new(stamp, Body::checked(Draft::Merged { change: 7 })?))
}

/// A replica with a merge of site 1 under a start.
fn used(alloc: Global, start: u32) -> Result<Replica, Fail> {
    let mut replica = Replica::new(alloc);
    let _taken = replica.take(merge(1, start, 1)?)?;
    Ok(replica)
}

/// How far a window sees the row.
fn reach(window: &mut Window) -> Result<u64, Fail>
    ensures { GoesOn window.old window.new }
{
    Ok(window.front()?.reach(ROW))
}

#[test]
fn faults_have_numbers_and_names(rt: HostRuntime) {
    publishes_are_steps();
    later_journals_go_on();
    stamps_are_above_all();
    assert_open_faults(&rt);
    assert_desk_faults(&rt);
    assert_window_faults(&rt);
    assert_found(&rt, (Stranger.number(), Stranger.name()), (1, "Stranger"));
}

/// The faults of openings have their numbers and names.
fn assert_open_faults(rt: &impl Abort) {
    for (fault, number, name) in [
        (OpenFault::NoMemory, 1, "NoMemory"),
        (OpenFault::NoPlace, 2, "NoPlace"),
        (OpenFault::StartUsed, 3, "StartUsed"),
    ] {
        assert_found(rt, (fault.number(), fault.name()), (number, name));
    }
}

/// The faults of desks have their numbers and names.
fn assert_desk_faults(rt: &impl Abort) {
    for (fault, number, name) in [
        (DeskFault::ClockSpent, 1, "ClockSpent"),
        (DeskFault::BadBody(BodyFault::BadSet), 2, "BadBody"),
        (DeskFault::NoMemory(1), 3, "NoMemory"),
    ] {
        assert_found(rt, (fault.number(), fault.name()), (number, name));
    }
}

/// The faults of windows have their numbers and names.
fn assert_window_faults(rt: &impl Abort) {
    for (fault, number, name) in [
        (WindowFault::NoMemory, 2, "NoMemory"),
        (WindowFault::Closed, 3, "Closed"),
    ] {
        assert_found(rt, (fault.number(), fault.name()), (number, name));
    }
}

/// How an opening of a site over a merge of site 1 under start 2 is answered: 0 where it opens with one window.
fn opened<R: Wait>(rt: &R, alloc: Global, site: u16, start: u32) -> Result<u8, Fail> {
    match open_site(rt, site, start, 1, used(alloc, 2)?) {
        Ok((desk, windows)) => {
            desk.end(rt);
            Ok(if windows.len() == 1 { 0 } else { 100 })
        }
        Err(fault) => Ok(fault.number()),
    }
}

#[test]
fn a_start_is_used_once(rt: HostRuntime) -> Result<(), Fail> {
    for (site, start, number) in [(1, 2, 3), (1, 1, 3), (1, 3, 0), (2, 1, 0), (2, 2, 0)] {
        let answered = opened(&rt, rt.alloc(), site, start)?;
        assert_found(&rt, (site, start, answered), (site, start, number));
    }
    Ok(())
}

/// A site over a replica, with two windows.
pub fn open_two<R: Wait>(
    rt: &R,
    site: u16,
    start: u32,
    replica: Replica,
) -> Result<(Desk, Window, Window), Fail>
    ensures { IfOk result (λ opened. (opened.1 ≡ watching opened.0) × (opened.2 ≡ watching opened.0)) }
{
    let (desk, mut windows) = open_site(rt, site, start, 2, replica)?;
    let Some(first) = windows.pop() else {
        desk.end(rt);
        return Err(Fail::from("a window"));
    };
    let Some(second) = windows.pop() else {
        desk.end(rt);
        return Err(Fail::from("two windows"));
    };
    Ok((desk, first, second))
}

/// What a window sees of an operation: whether it has the stamp, how far the row goes, how many an empty front lacks,
/// and how long a copy is.
type Sight = (bool, u64, usize, usize);

/// How many operations a window has that an empty front lacks, and how many a copy of it has.
fn counted(alloc: Global, window: &mut Window) -> Result<(usize, usize), WindowFault> {
    let missing = window.missing(&Front::new(alloc), 256)?.ops.len();
    let copied = window.snapshot()?.len();
    Ok((missing, copied))
}

/// What a window sees of an operation.
fn seen(alloc: Global, window: &mut Window, stamp: Stamp) -> Result<Sight, Fail> {
    let found = window.has(stamp)?;
    let row = reach(window)?;
    let (missing, copied) = counted(alloc, window)?;
    Ok((found, row, missing, copied))
}

/// Takes in a patch set of change 101, of which a window learns: its stamp.
fn take_in_learnt<R: Wait>(
    rt: &R,
    alloc: Global,
    desk: &mut Desk,
    window: &mut Window,
) -> Result<Stamp, Fail>
    requires { window.old ≡ watching desk.old }
{
    let receipt = desk.intake(rt, patch_set(alloc, 101)?)?;
    window.learn(&receipt)?;
    Ok(receipt.stamp().ok_or("a stamp")?)
}

/// Whether a window finds each of no stamps, of the one of an intake twice, and of that beside one that nobody has.
fn stamps_found<R: Wait>(
    rt: &R,
    alloc: Global,
    desk: &mut Desk,
    window: &mut Window,
) -> Result<(bool, bool, bool), Fail>
    requires { window.old ≡ watching desk.old }
{
    let stamp = take_in_learnt(rt, alloc, desk, window)?;
    let unknown = Stamp::new(9, 9, 9, 9).ok_or("a stamp")?;
    let none = window.has_stamps(&[])?;
    let twice = window.has_stamps(&[stamp, stamp])?;
    Ok((none, twice, window.has_stamps(&[stamp, unknown])?))
}

#[test]
fn a_window_looks_for_each_stamp(rt: HostRuntime) -> Result<(), Fail> {
    let (mut desk, mut first, _second) = open_two(&rt, 1, 1, Replica::new(rt.alloc()))?;
    let found = stamps_found(&rt, rt.alloc(), &mut desk, &mut first);
    desk.end(&rt);
    assert_found(&rt, found?, (true, true, false));
    Ok(())
}

/// Whether publishes of nothing have no stamp.
fn publishes_nothing<R: Wait>(rt: &R, alloc: Global, desk: &mut Desk) -> Result<bool, DeskFault> {
    let taken = desk.take_all(rt, Vec::new(alloc))?.stamp();
    let flushed = desk.flush(rt)?.stamp();
    Ok(taken.is_none() && flushed.is_none())
}

/// Takes in a patch set, of which the first window learns and the second doesn't, and publishes nothing twice: what the
/// windows see, whether nothing has no stamp, and what the first window leaves out.
fn take_in<R: Wait>(
    rt: &R,
    alloc: Global,
    desk: &mut Desk,
    first: &mut Window,
    second: &mut Window,
) -> Result<(Sight, Sight, bool, (u32, bool)), Fail>
    requires { first.old ≡ watching desk.old }
{
    let stamp = take_in_learnt(rt, alloc, desk, first)?;
    let learnt = seen(alloc, first, stamp)?;
    let unlearnt = seen(alloc, second, stamp)?;
    let is_unstamped = publishes_nothing(rt, alloc, desk)?;
    Ok((learnt, unlearnt, is_unstamped, left_out(alloc, first)?))
}

/// What a report says of one item that is left out: its change, and whether that is for a condition of its own.
fn left_out(alloc: Global, window: &mut Window) -> Result<(u32, bool), Fail> {
    let verdicts = window.report(&Gate::read(alloc, GATE)?)?;
    match verdicts.out() {
        [left] if verdicts.ready().is_empty() => Ok((
            left.item.change,
            matches!(left.refusal, Refusal::Own(_)),
        )),
        _ => Err(Fail::from("one item is left out")),
    }
}

#[test]
fn an_item_is_seen_by_two_windows(rt: HostRuntime) -> Result<(), Fail> {
    let (mut desk, mut first, mut second) = open_two(&rt, 1, 1, Replica::new(rt.alloc()))?;
    let done = take_in(&rt, rt.alloc(), &mut desk, &mut first, &mut second);
    desk.end(&rt);
    let sight = (true, 1, 1, 1);
    assert_found(&rt, done?, (sight, sight, true, (101, true)));
    Ok(())
}

/// What two windows see of an intake of which none learns, though one has learnt no other and the other only the one
/// before.
fn take_in_unlearnt<R: Wait>(
    rt: &R,
    alloc: Global,
    desk: &mut Desk,
    first: &mut Window,
    second: &mut Window,
) -> Result<(Sight, Sight), Fail>
    requires { first.old ≡ watching desk.old }
{
    let _learnt = take_in_learnt(rt, alloc, desk, first)?;
    let later = desk.intake(rt, patch_set(alloc, 102)?)?;
    let stamp = later.stamp().ok_or("a stamp")?;
    Ok((seen(alloc, first, stamp)?, seen(alloc, second, stamp)?))
}

#[test]
fn windows_see_what_they_have_not_learnt(rt: HostRuntime) -> Result<(), Fail> {
    let (mut desk, mut first, mut second) = open_two(&rt, 1, 1, Replica::new(rt.alloc()))?;
    let done = take_in_unlearnt(&rt, rt.alloc(), &mut desk, &mut first, &mut second);
    desk.end(&rt);
    assert_found(&rt, done?, ((true, 2, 2, 2), (true, 2, 2, 2)));
    Ok(())
}

/// A pause that always goes on, and counts.
#[derive(Drop)]
struct Always {
    asked: u32,
}

impl Pause for Always {
    fn held(&mut self) -> bool {
        self.asked = self.asked.saturating_add(1);
        true
    }
}

/// How many items a report leaves out that such a pause holds, and how often the pause was asked.
fn report_paused(alloc: Global, window: &mut Window) -> Result<(usize, u32), Fail> {
    let gate = Gate::read(alloc, GATE)?;
    let mut pause = Always { asked: 0 };
    let left = window.report_with(&gate, &mut pause)?.out().len();
    Ok((left, pause.asked))
}

#[test]
fn a_pause_ends(rt: HostRuntime) -> Result<(), Fail> {
    let (desk, mut first, _second) = open_two(&rt, 1, 1, Replica::new(rt.alloc()))?;
    let found = report_paused(rt.alloc(), &mut first);
    desk.end(&rt);
    assert_found(&rt, found?, (0, 1_000_000));
    Ok(())
}

/// What a desk refuses for a draft, and whether it holds anything then.
fn refused<R: Wait>(rt: &R, desk: &mut Desk, draft: Draft) -> (u8, usize) {
    match desk.intake(rt, draft) {
        Ok(_) => (0, desk.held().len()),
        Err(fault) => (fault.number(), desk.held().len()),
    }
}

/// What the desk of a site over a replica refuses for a bad body, and what a window copies once the site has ended: 9
/// where it has nothing to copy.
fn refused_over<R: Wait>(rt: &R, replica: Replica) -> Result<((u8, usize), usize), Fail> {
    let (mut desk, mut window, _second) = open_two(rt, 1, 1, replica)?;
    let refused = refused(rt, &mut desk, Draft::Merged { change: 0 });
    desk.end(rt);
    Ok((
        refused,
        window.snapshot().map_or(9, |replica| replica.len()),
    ))
}

/// A replica with a merge at the last time of all.
fn at_the_last_time(alloc: Global) -> Result<Replica, Fail> {
    let mut replica = Replica::new(alloc);
    let _taken = replica.take(merge(2, 1, u64::MAX)?)?;
    Ok(replica)
}

#[test]
fn bad_bodies_and_a_spent_clock_change_nothing(rt: HostRuntime) -> Result<(), Fail> {
    let spent = at_the_last_time(rt.alloc())?;
    assert_found(&rt, refused_over(&rt, spent)?, ((1, 0), 9));
    let empty = Replica::new(rt.alloc());
    assert_found(&rt, refused_over(&rt, empty)?, ((2, 0), 9));
    Ok(())
}

/// Two merges of another site.
fn two_merges(alloc: Global) -> Result<Vec<Op>, Fail> {
    let mut ops = Vec::new(alloc);
    ops.push(merge(2, 1, 5)?)?;
    ops.push(merge(2, 1, 6)?)?;
    Ok(ops)
}

/// Holds two merges that came between two that are stamped: the times of the stamps.
fn hold_four(alloc: Global, desk: &mut Desk) -> Result<(u64, u64), Fail>
    ensures { desk.new.book ≡ desk.old.book }
{
    let ops = two_merges(alloc)?;
    let first = desk.hold(Draft::Merged { change: 1 })?;
    desk.hold_all(ops)?;
    let second = desk.hold(Draft::Merged { change: 2 })?;
    Ok((first.time(), second.time()))
}

/// Publishes what is held, of which the window learns.
fn flush_learnt<R: Wait>(rt: &R, desk: &mut Desk, window: &mut Window) -> Result<(), Fail>
    requires { desk.old.book ≡ window.old.book }
{
    let receipt = desk.flush(rt)?;
    window.learn(&receipt)?;
    Ok(())
}

/// How many operations a window sees.
fn count_seen(window: &mut Window) -> Result<usize, WindowFault>
    ensures { window.new.book ≡ window.old.book }
{
    Ok(window.snapshot()?.len())
}

/// How many operations a window has that an empty front lacks.
fn count_lacked(alloc: Global, window: &mut Window) -> Result<usize, WindowFault> {
    Ok(window.missing(&Front::new(alloc), 256)?.ops.len())
}

/// Holds what is stamped and what came, and publishes it: what a window sees of it before and after, and the times of
/// the stamps.
fn hold_and_flush<R: Wait>(
    rt: &R,
    alloc: Global,
    desk: &mut Desk,
    window: &mut Window,
) -> Result<(usize, usize, u64, u64), Fail>
    requires { desk.old.book ≡ window.old.book }
{
    let (first, second) = hold_four(alloc, desk)?;
    let before = count_seen(window)?;
    flush_learnt(rt, desk, window)?;
    let after = count_lacked(alloc, window)?;
    Ok((before, after, first, second))
}

#[test]
fn what_is_held_is_published_at_once(rt: HostRuntime) -> Result<(), Fail> {
    let (mut desk, mut first, _second) = open_two(&rt, 1, 1, Replica::new(rt.alloc()))?;
    let done = hold_and_flush(&rt, rt.alloc(), &mut desk, &mut first);
    let left = desk.held().len();
    desk.end(&rt);
    assert_found(&rt, done?, (0, 4, 1, 7));
    assert_found(&rt, left, 0);
    Ok(())
}

/// A receipt of a site of this number and start, whose publish is its first.
fn foreign<R: Wait>(rt: &R, alloc: Global, site: u16, start: u32) -> Result<Receipt, Fail>
    ensures { IfOk result (λ receipt. (receipt.site ≡ site) × (receipt.start ≡ start)) }
{
    let (mut desk, _windows) = open_site(rt, site, start, 1, Replica::new(alloc))?;
    let receipt = desk.flush(rt);
    desk.end(rt);
    Ok(receipt?)
}

/// A site of this number and start, with one window.
pub fn open_one<R: Wait>(
    rt: &R,
    alloc: Global,
    site: u16,
    start: u32,
) -> Result<(Desk, Window), Fail>
    ensures { IfOk result
        (λ opened. (opened.1.site ≡ site) × (opened.1.start ≡ start) × (opened.1 ≡ watching opened.0)) }
{
    let (desk, mut windows) = open_site(rt, site, start, 1, Replica::new(alloc))?;
    let Some(window) = windows.pop() else {
        desk.end(rt);
        return Err(Fail::from("a window"));
    };
    Ok((desk, window))
}

/// Whether a window refuses a receipt that isn't its own: it then sees what it saw.
fn is_refused(window: &mut Window, receipt: &Receipt) -> bool
    requires { ¬ BearsOwn window.old receipt.now }
    ensures { window.new ≡ window.old }
{
    window.learn(receipt).is_err()
}

#[test]
fn receipts_of_others_are_strange(rt: HostRuntime) -> Result<(), Fail> {
    let site = foreign(&rt, rt.alloc(), 2, 1)?;
    let start = foreign(&rt, rt.alloc(), 1, 2)?;
    let (mut desk, mut first) = open_one(&rt, rt.alloc(), 1, 1)?;
    let are_refused = is_refused(&mut first, &site) && is_refused(&mut first, &start);
    let row = reach(&mut first);
    let own = match desk.flush(&rt) {
        Ok(receipt) => first.learn(&receipt).is_ok(),
        Err(_) => false,
    };
    desk.end(&rt);
    assert_found(&rt, (are_refused, row?, own), (true, 0, true));
    Ok(())
}

#[test]
fn a_window_outlives_its_desk(rt: HostRuntime) -> Result<(), Fail> {
    let (desk, mut first, _second) = open_two(&rt, 1, 1, Replica::new(rt.alloc()))?;
    desk.end(&rt);
    assert_found(&rt, first.front().map_or(9, |_| 0), 9);
    assert_found(
        &rt,
        first.has(Stamp::new(1, 1, 1, 1).ok_or("a stamp")?),
        Err(WindowFault::Closed),
    );
    Ok(())
}
