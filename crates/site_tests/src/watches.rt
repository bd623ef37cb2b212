//! Watches of running sites, by one thread.

ghost use Rattle.std.specs.Prelude.{◌≡◌, IfOk};

use super::asserts::assert_found;
use super::running::{GATE, open_one, patch_set};
use gate_rules::{Clause, Condition, Gate, Side};
use ready_core::Refusal;
use review_ops::Draft;
use site_shared::{Desk, RefreshFault, Watch, Window};
use std::alloc::Global;
use std::sync::Wait;
use std::test::Fail;

/// A watch of what a window sees, made with a copy of a gate.
fn watched(alloc: Global, window: &mut Window) -> Result<Watch, Fail>
    ensures own { IfOk result (λ watch. (watch.site ≡ window.old.site) × (watch.start ≡ window.old.start)) }
    ensures book { IfOk result (λ watch. (watch.book ≡ window.new.book)) }
    ensures later { (window.new.book ≡ window.old.book) × (window.new.site ≡ window.old.site)
        × (window.new.start ≡ window.old.start) }
{
    let gate = Gate::read(alloc, GATE)?;
    Ok(window.watch(gate.copy()?)?)
}

/// Takes in a draft, of which the window learns.
fn take_in<R: Wait>(rt: &R, desk: &mut Desk, window: &mut Window, draft: Draft) -> Result<(), Fail>
    requires { desk.old.book ≡ window.old.book }
    ensures desk { desk.new.book ≡ desk.old.book }
    ensures window { window.new.book ≡ window.old.book }
{
    let receipt = desk.intake(rt, draft)?;
    window.learn(&receipt)?;
    Ok(())
}

/// Takes in a patch set and a vote that approves it.
fn take_approved<R: Wait>(
    rt: &R,
    alloc: Global,
    desk: &mut Desk,
    window: &mut Window,
) -> Result<(), Fail>
    requires { desk.old.book ≡ window.old.book }
    ensures desk { desk.new.book ≡ desk.old.book }
    ensures window { window.new.book ≡ window.old.book }
{
    take_in(rt, desk, window, patch_set(alloc, 101)?)?;
    let vote = Draft::Vote {
        change: 101,
        set: 1,
        label: String::from_str(alloc, "Workflow")?,
        voter: String::from_str(alloc, "ann")?,
        value: 1,
    };
    take_in(rt, desk, window, vote)
}

/// The change of an item, and why it is left out where it isn't ready.
type Judged = (u32, Option<Refusal>);

/// What a watch says of the only item.
fn only_item(watch: &Watch) -> Option<Judged> {
    let verdicts = watch.verdicts()?;
    match (verdicts.ready(), verdicts.out()) {
        ([item], []) => Some((item.change, None)),
        ([], [left]) => Some((left.item.change, Some(left.refusal))),
        _ => None,
    }
}

/// What a watch says of an approved item, before and after its change is abandoned.
fn abandon<R: Wait>(
    rt: &R,
    alloc: Global,
    desk: &mut Desk,
    window: &mut Window,
) -> Result<(Option<Judged>, Option<Judged>), Fail>
    requires { desk.old.book ≡ window.old.book }
{
    take_approved(rt, alloc, desk, window)?;
    let mut watch = watched(alloc, window)?;
    let before = only_item(&watch);
    take_in(rt, desk, window, Draft::Abandon { change: 101 })?;
    window.refresh(&mut watch)?;
    Ok((before, only_item(&watch)))
}

#[test]
fn a_watch_follows_its_window(rt: HostRuntime) -> Result<(), Fail> {
    let (mut desk, mut window) = open_one(&rt, rt.alloc(), 1, 1)?;
    let said = abandon(&rt, rt.alloc(), &mut desk, &mut window);
    desk.end(&rt);
    let closed = Refusal::Own(Condition {
        side: Side::Require,
        clause: Clause::OpenState,
    });
    assert_found(&rt, said?, (Some((101, None)), Some((101, Some(closed)))));
    Ok(())
}

/// How a window of a site of this number and start refreshes a watch, unless that fails otherwise.
fn refresh_by<R: Wait>(
    rt: &R,
    alloc: Global,
    site: u16,
    start: u32,
    watch: &mut Watch,
) -> Result<Result<(), RefreshFault>, Fail>
    requires { ¬ ((watch.old.site ≡ site) × (watch.old.start ≡ start)) }
    ensures { (watch.new.site ≡ watch.old.site) × (watch.new.start ≡ watch.old.start) }
{
    let (desk, mut window) = open_one(rt, alloc, site, start)?;
    let refreshed = window.refresh(watch);
    desk.end(rt);
    Ok(refreshed)
}

#[test]
fn watches_of_others_are_strange(rt: HostRuntime) -> Result<(), Fail> {
    let (desk, mut window) = open_one(&rt, rt.alloc(), 1, 1)?;
    let watch = watched(rt.alloc(), &mut window);
    desk.end(&rt);
    let mut watch = watch?;
    let site = refresh_by(&rt, rt.alloc(), 2, 1, &mut watch)?;
    let start = refresh_by(&rt, rt.alloc(), 1, 2, &mut watch)?;
    assert_found(
        &rt,
        (site, start),
        (Err(RefreshFault::Stranger), Err(RefreshFault::Stranger)),
    );
    assert_found(&rt, watch.verdicts().is_some(), true);
    Ok(())
}

#[test]
fn a_watch_outlives_its_desk(rt: HostRuntime) -> Result<(), Fail> {
    let (desk, mut window) = open_one(&rt, rt.alloc(), 1, 1)?;
    let watch = watched(rt.alloc(), &mut window);
    desk.end(&rt);
    let mut watch = watch?;
    assert_found(&rt, window.refresh(&mut watch), Err(RefreshFault::Closed));
    assert_found(&rt, watch.verdicts().is_some(), true);
    Ok(())
}

#[test]
fn refresh_faults_have_numbers_and_names(rt: HostRuntime) {
    for (fault, number, name) in [
        (RefreshFault::Stranger, 1, "Stranger"),
        (RefreshFault::NoMemory, 2, "NoMemory"),
        (RefreshFault::Closed, 3, "Closed"),
    ] {
        assert_found(&rt, (fault.number(), fault.name()), (number, name));
    }
}
