//! How a site is opened.

ghost use Rattle.std.specs.Prelude.{◌≡◌, ◌≢◌, ◌<◌, ◌≤◌, ◌↔◌, [], ◌∷◌, true, All, Err, IfErr, IfOk, Some, drop, vec_len};
ghost use Rattle.std.specs.List.{list_any};
ghost use Rattle.left_right.specs.Sides.{view};
ghost use Rattle.site_shared.specs.Accounts.{is_used, watching};
ghost use Rattle.site_shared.specs.Law.{head_of};
ghost use Rattle.site_shared.specs.Spares.{AreSpares};
ghost use Rattle.site_shared.specs.declared.fault.OpenFault.TheVariants.{StartUsed};

use crate::desk::Desk;
use crate::fault::OpenFault;
use crate::law::Opens;
use crate::showing::Show;
use crate::shown::Shown;
use crate::sight::{Head, Opened, Sight};
use crate::spares::Spares;
use crate::stage::shown_by;
use crate::window::Window;
use lattice_core::NoMemory;
use replica_core::{Iter, Replica};
use std::alloc::Global;
use std::sync::{Arc, Wait};

/// Opens a site over a replica, with one desk and so many windows. Where the replica holds a stamp of the site under
/// this start or a later one it answers `StartUsed`, before all else. Copies of the replica share what it has; those
/// that its first publishes need are made here. It costs O(n) for n operations.
pub fn open_site<R: Wait>(
    rt: &R,
    site: u16,
    start: u32,
    windows: usize,
    replica: Replica,
) -> Result<(Desk, Vec<Window>), OpenFault>
    requires { (0 < windows) × (windows ≤ 64) }
    ensures used { (result ≡ Err StartUsed) ↔ (list_any (is_used site start) replica ≡ true) }
    ensures desk { IfOk result (λ opened. (opened.0.published ≡ replica ∷ []) × (opened.0.held ≡ [])
        × (opened.0.site ≡ site) × (opened.0.start ≡ start)) }
    ensures windows { IfOk result
        (λ opened. (vec_len opened.1 ≡ windows) × All (λ window. window ≡ watching opened.0) opened.1.items) }
{
    if is_start_used(replica.iter(), site, start) {
        return Err(OpenFault::StartUsed);
    }
    let alloc = replica.allocator();
    let Ok((head, latest, spares)) = opening(alloc, replica) else {
        return Err(OpenFault::NoMemory);
    };
    let Ok(mut show) = shown_first(rt, alloc, windows, &latest) else {
        return Err(OpenFault::NoMemory);
    };
    match new_windows(alloc, &mut show, &latest.sight, (site, start), windows) {
        Ok(made) => Ok((Desk::new(show, head, latest, spares, (site, start)), made)),
        Err(fault) => {
            drop(show.take(rt));
            Err(fault)
        }
    }
}

/// Whether an operation has a stamp of the site under this start or a later one.
fn is_start_used(mut ops: Iter<'_>, site: u16, start: u32) -> bool
    ensures { result ≡ list_any (is_used site start) ops.entry }
{
    ops.any(|op| op.stamp().site() == site && start <= op.stamp().start())
}

/// The list of publishes, which begins with a journal, the replica that has it, and copies of that.
fn opening(alloc: Global, mut replica: Replica) -> Result<(Head, Shown, Spares), NoMemory>
    ensures { IfOk result
        (λ opened. (opened.0 ≡ head_of opened.1.sight.seen.book) × (opened.1.sight.seen.log ≡ replica ∷ [])
        × AreSpares replica opened.2) }
{
    replica.share()?;
    let Opened { head, sight } = Opened::new();
    let Some(sight) = sight.with::<Replica, Opens>(&head, &replica) else {
        return Err(NoMemory);
    };
    let spares = Spares::of(alloc, &replica)?;
    let replica = Arc::new(alloc, replica)?;
    Ok((head, Shown { replica, sight }, spares))
}

/// Shows a replica to readers that don't exist yet. It is published once, so that there is room for later publishes.
fn shown_first<R: Wait>(
    rt: &R,
    alloc: Global,
    windows: usize,
    latest: &Shown,
) -> Result<Show, NoMemory>
    requires { (0 < windows) × (windows ≤ 64) }
    ensures { IfOk result
        (λ show. (drop show.behind show.log.items ≡ []) × (show.desk.shown.value.sight.seen ≡ latest.now.sight.seen)
        × (view show.desk.place ≡ Some latest.now.sight.seen)) }
{
    let first = latest.again()?;
    let second = latest.again()?;
    let next = latest.again()?;
    let show = Show::new(alloc, first, second, windows)?;
    Ok(shown_by(rt, show, next))
}

/// So many windows that have seen what the desk has seen.
fn new_windows(
    alloc: Global,
    show: &mut Show,
    sight: &Sight,
    origin: (u16, u32),
    count: usize,
) -> Result<Vec<Window>, OpenFault>
    requires { view show.old.desk.place ≡ Some sight.now.seen }
    ensures kept { (show.new.desk.shown ≡ show.old.desk.shown) × (show.new.log ≡ show.old.log)
        × (show.new.behind ≡ show.old.behind) }
    ensures ok { IfOk result (λ made. (vec_len made ≡ count)
        × All (λ w. w ≡ record { book = sight.now.seen.book; seen = sight.now.seen.log; site = origin.0; start = origin.1 }) made.items) }
    ensures err { IfErr result (λ fault. fault ≢ StartUsed) }
{
    let Ok(mut made) = Vec::with_capacity(alloc, count) else {
        return Err(OpenFault::NoMemory);
    };
    for _window in 0..count {
        let Ok(window) = Window::new(show, sight, origin.0, origin.1) else {
            return Err(OpenFault::NoPlace);
        };
        if made.push(window).is_err() {
            return Err(OpenFault::NoMemory);
        }
    }
    Ok(made)
}
