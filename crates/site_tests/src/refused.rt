//! Operations to which memory is refused: the desk holds the first so many of them, no window sees these, and the next
//! publish has just them. A desk takes its memory from the system, which refuses none in CI: there what a refusal
//! leaves held is held by hand. `bench/refuse desks` refuses each request of these tests in turn: an error ends a test
//! then, and what has to be so after a refusal is asserted.

ghost use Rattle.std.specs.Prelude.{◌≡◌, IfOk};

use super::asserts::assert_found;
use super::running::{GATE, ROW, merge, open_one, patch_set};
use super::talks::{MERGE_5, MERGE_6};
use byte_ends::Ends;
use gate_rules::Gate;
use gossip_line::{LineFault, session_run};
use op_text::read_op;
use replica_core::{Front, Replica};
use review_ops::{Op, Stamp};
use site_port::OwnPort;
use site_shared::{Desk, DeskFault, Receipt, Window};
use std::alloc::Global;
use std::process::Abort;
use std::sync::Wait;
use std::test::Fail;

/// The first so many merges of site 1 under start 1.
fn merges(alloc: Global, count: usize) -> Result<Vec<Op>, Fail> {
    let mut ops = Vec::new(alloc);
    for seq in 1..=count as u64 {
        ops.push(merge(1, 1, seq)?)?;
    }
    Ok(ops)
}

/// Whether a window sees the first so many merges, and no other operation.
fn is_seen(alloc: Global, window: &mut Window, count: usize) -> Result<bool, Fail>
    ensures { window.new.book ≡ window.old.book }
{
    let seen = window.missing(&Front::new(alloc), 256)?;
    let wanted = merges(alloc, count)?;
    Ok(seen.ops.as_slice() == wanted.as_slice())
}

/// A window sees the first so many merges, and no other operation.
fn assert_seen(
    rt: &impl Abort,
    alloc: Global,
    window: &mut Window,
    count: usize,
) -> Result<(), Fail>
    ensures { window.new.book ≡ window.old.book }
{
    let seen = is_seen(alloc, window, count)?;
    assert_found(rt, seen, true);
    Ok(())
}

/// Whether a desk holds the first so many merges, and no other operation.
fn is_held(alloc: Global, desk: &Desk, count: usize) -> Result<bool, Fail> {
    let wanted = merges(alloc, count)?;
    Ok(desk.held() == wanted.as_slice())
}

/// Flushes what a desk holds, of which the window learns.
fn flush_learnt<R: Abort + Wait>(rt: &R, desk: &mut Desk, window: &mut Window) -> Result<(), Fail>
    requires { desk.old.book ≡ window.old.book }
    ensures desk { desk.new.book ≡ desk.old.book }
    ensures window { window.new.book ≡ window.old.book }
{
    let receipt = desk.flush(rt).expect(rt, "a flush");
    window.learn(&receipt)?;
    Ok(())
}

/// Takes both merges, of which the window learns.
fn take_both_learnt<R: Abort + Wait>(
    rt: &R,
    alloc: Global,
    desk: &mut Desk,
    window: &mut Window,
) -> Result<(), Fail>
    requires { desk.old.book ≡ window.old.book }
{
    let both = merges(alloc, 2)?;
    let receipt = desk.take_all(rt, both).expect(rt, "both once more");
    window.learn(&receipt)?;
    Ok(())
}

/// Of two merges the desk holds so many, which the window doesn't see: a flush publishes just them, and once both are
/// taken again the window sees both.
fn publish_rest<R: Abort + Wait>(
    rt: &R,
    alloc: Global,
    desk: &mut Desk,
    window: &mut Window,
    held: usize,
) -> Result<(), Fail>
    requires { desk.old.book ≡ window.old.book }
{
    assert_found(rt, is_held(alloc, desk, held)?, true);
    assert_seen(rt, alloc, window, 0)?;
    flush_learnt(rt, desk, window)?;
    assert_seen(rt, alloc, window, held)?;
    take_both_learnt(rt, alloc, desk, window)?;
    assert_seen(rt, alloc, window, 2)
}

/// Takes two merges, and what is left of them where memory is refused.
fn take_two<R: Abort + Wait>(
    rt: &R,
    alloc: Global,
    desk: &mut Desk,
    window: &mut Window,
) -> Result<(), Fail>
    requires { desk.old.book ≡ window.old.book }
{
    let both = merges(alloc, 2)?;
    match desk.take_all(rt, both) {
        Ok(receipt) => {
            window.learn(&receipt)?;
            assert_seen(rt, alloc, window, 2)
        }
        Err(DeskFault::NoMemory(held)) => publish_rest(rt, alloc, desk, window, held),
        Err(fault) => Err(Fail::from(fault)),
    }
}

#[test]
fn two_operations_may_be_refused_memory(rt: HostRuntime) -> Result<(), Fail> {
    let (mut desk, mut window) = open_one(&rt, rt.alloc(), 2, 1)?;
    let done = take_two(&rt, rt.alloc(), &mut desk, &mut window);
    desk.end(&rt);
    done
}

/// Holds the first so many of two merges, as a refusal does.
fn hold_some<R: Abort + Wait>(
    rt: &R,
    alloc: Global,
    desk: &mut Desk,
    window: &mut Window,
    held: usize,
) -> Result<(), Fail>
    requires { desk.old.book ≡ window.old.book }
{
    desk.hold_all(merges(alloc, held)?)?;
    publish_rest(rt, alloc, desk, window, held)
}

#[test]
fn what_a_refusal_leaves_held_is_published_first(rt: HostRuntime) -> Result<(), Fail> {
    for held in 0..=2 {
        let (mut desk, mut window) = open_one(&rt, rt.alloc(), 2, 1)?;
        let done = hold_some(&rt, rt.alloc(), &mut desk, &mut window, held);
        desk.end(&rt);
        done?;
    }
    Ok(())
}

/// Where nothing is held, the receipt of an intake that is made again.
fn intake_again<R: Abort + Wait>(rt: &R, alloc: Global, desk: &mut Desk) -> Result<Receipt, Fail>
    ensures { IfOk result (λ receipt. receipt.book ≡ desk.old.book) }
{
    assert_found(rt, desk.held().len(), 0);
    let draft = patch_set(alloc, 101)?;
    Ok(desk.intake(rt, draft).expect(rt, "an intake"))
}

/// Where one operation is held, the receipt of its flush, without a stamp.
fn flush_one<R: Abort + Wait>(rt: &R, desk: &mut Desk) -> Receipt
    ensures { result.book ≡ desk.old.book }
{
    assert_found(rt, desk.held().len(), 1);
    let receipt = desk.flush(rt).expect(rt, "a flush");
    assert_found(rt, receipt.stamp().is_none(), true);
    receipt
}

/// The receipt of an intake. Where memory is refused nothing is held and the intake is made again, or its operation is
/// and is flushed, without a stamp.
fn intake<R: Abort + Wait>(rt: &R, alloc: Global, desk: &mut Desk) -> Result<Receipt, Fail>
    ensures { IfOk result (λ receipt. receipt.book ≡ desk.old.book) }
{
    let draft = patch_set(alloc, 101)?;
    match desk.intake(rt, draft) {
        Ok(receipt) => Ok(receipt),
        Err(DeskFault::NoMemory(0)) => intake_again(rt, alloc, desk),
        Err(DeskFault::NoMemory(_)) => Ok(flush_one(rt, desk)),
        Err(fault) => Err(Fail::from(fault)),
    }
}

/// A window sees the operation of an intake once it has learnt its receipt.
fn learn_intake<R: Abort + Wait>(
    rt: &R,
    alloc: Global,
    desk: &mut Desk,
    window: &mut Window,
) -> Result<(), Fail>
    requires { desk.old.book ≡ window.old.book }
{
    let receipt = intake(rt, alloc, desk)?;
    window.learn(&receipt)?;
    let stamp = Stamp::new(1, 1, 1, 1).ok_or("a stamp")?;
    assert_found(rt, window.has(stamp), Ok(true));
    assert_found(rt, window.front()?.reach(ROW), 1);
    Ok(())
}

#[test]
fn an_intake_may_be_refused_memory(rt: HostRuntime) -> Result<(), Fail> {
    let (mut desk, mut window) = open_one(&rt, rt.alloc(), 1, 1)?;
    let done = learn_intake(&rt, rt.alloc(), &mut desk, &mut window);
    desk.end(&rt);
    done
}

/// What a front is answered that lacks one of two merges.
const ANSWERED: &[u8] =
    b"hello 2\nop {\"change\":6,\"op\":\"merged\",\"seq\":2,\"site\":1,\"start\":1,\"time\":2}\ndone\nbye\n";

/// What it is answered where memory is refused.
const REFUSED: &[u8] = b"hello 2\nno 5 NoMemory\nbye\n";

/// A replica of two merges.
fn two_merges(alloc: Global) -> Result<Replica, Fail> {
    let mut replica = Replica::new(alloc);
    let _first = replica.take(read_op(alloc, MERGE_5)?)?;
    let _second = replica.take(read_op(alloc, MERGE_6)?)?;
    Ok(replica)
}

/// A port of site 1 under start 1 that holds two merges.
fn port_of_two(alloc: Global) -> Result<OwnPort, Fail> {
    let gate = Gate::read(alloc, GATE)?;
    Ok(OwnPort::new(two_merges(alloc)?, gate, 1, 1))
}

/// How a session over a port that asks for one of two merges ends, and how many operations the site then has.
fn asked_for_one(
    alloc: Global,
    mut port: OwnPort,
    drain: &mut Ends<Vec<u8>>,
) -> (Option<LineFault>, usize) {
    let mut source = Ends::new(b"hello 2\nfront [[1,1,1]]\nquit\n".as_slice());
    let fault = session_run(alloc, &mut source, drain, &mut port).err();
    (fault, port.replica().len())
}

/// What a session over two merges writes whose front lacks one of them, how it ends, and how many operations the site
/// then has.
fn ask_for_one(alloc: Global) -> Result<(Vec<u8>, Option<LineFault>, usize), Fail> {
    let port = port_of_two(alloc)?;
    let mut drain = Ends::new(Vec::with_capacity(alloc, 256)?);
    let (fault, count) = asked_for_one(alloc, port, &mut drain);
    Ok((drain.into_inner(), fault, count))
}

/// Whether a session that ends so may have written this.
fn may_be_written(text: &[u8], fault: Option<LineFault>) -> bool {
    match fault {
        None => text == ANSWERED || text == REFUSED,
        Some(_) => ANSWERED.starts_with(text) || REFUSED.starts_with(text),
    }
}

#[test]
fn a_session_may_be_refused_memory(rt: HostRuntime) -> Result<(), Fail> {
    let (written, fault, count) = ask_for_one(rt.alloc())?;
    assert_found(&rt, count, 2);
    assert_found(&rt, matches!(fault, None | Some(LineFault::NoMemory)), true);
    assert_found(&rt, may_be_written(written.as_slice(), fault), true);
    Ok(())
}
