//! Verdicts that are kept and updated from one report to the next.

ghost use Rattle.std.specs.Prelude.{◌≡◌, IfOk};
ghost use Rattle.std.specs.Option.{ForSome};
ghost use Rattle.ready_core.specs.Verdicts.{AreVerdicts};
ghost use Rattle.site_serve.specs.Reports.{IsWatchOn};
ghost use Rattle.site_shared.specs.Accounts.{GoesOn};
ghost use Rattle.site_shared.specs.Publishes.{arrive};
ghost use Rattle.state_core.specs.State.{state_of};

use super::opening::{OwnWatch, OwnWindow};
use gate_rules::Gate;
use lattice_core::NoMemory;
use ready_core::Verdicts;
use site_shared::{Naming, RefreshFault, WindowFault};
use std::alloc::Global;

/// The verdicts on what a window shows: those that were kept, brought up to date, or new ones, under a copy of the
/// gate, where none were. It costs what `OwnWindow::refresh` does, or `OwnWindow::watch`.
pub fn up_to_date_watch<J: Naming>(
    gate: &Gate,
    window: &mut OwnWindow<J>,
    kept: Option<OwnWatch<J>>,
) -> Result<OwnWatch<J>, WindowFault>
    requires { ForSome kept (λ watch. watch.watch.gate ≡ gate.now) }
    ensures later { GoesOn window.old.window window.new.window }
    ensures ok { IfOk result (λ watch. IsWatchOn gate.now window.new.window.seen watch.watch) }
{
    let Some(mut watch) = kept else {
        return new_watch(gate, window);
    };
    match window.refresh(&mut watch) {
        Ok(()) => Ok(watch),
        Err(RefreshFault::NoMemory) => Err(WindowFault::NoMemory),
        Err(RefreshFault::Stranger | RefreshFault::Closed) => Err(WindowFault::Closed),
    }
}

/// A watch of what a window shows, under a copy of a gate.
fn new_watch<J: Naming>(gate: &Gate, window: &mut OwnWindow<J>) -> Result<OwnWatch<J>, WindowFault>
    ensures later { GoesOn window.old.window window.new.window }
    ensures ok { IfOk result (λ watch. IsWatchOn gate.now window.new.window.seen watch.watch) }
{
    let Ok(copy) = gate.copy() else {
        return Err(WindowFault::NoMemory);
    };
    window.watch(copy)
}

/// A copy of the verdicts of a watch, which has none only where memory was refused.
pub fn verdicts_copy<J: Naming>(alloc: Global, watch: &OwnWatch<J>) -> Result<Verdicts, NoMemory>
    ensures { IfOk result (AreVerdicts watch.now.watch.gate (state_of (arrive watch.now.watch.seen))) }
{
    let verdicts = watch.verdicts().ok_or(NoMemory)?;
    let ready = verdicts.ready().to_vec(alloc)?;
    let out = verdicts.out().to_vec(alloc)?;
    Ok(Verdicts::new(ready, out))
}
