//! Verdicts that follow what a window sees.

ghost use Rattle.std.specs.Prelude.{◌≡◌, IfSome, IsSome, OnErr, OnOk};
ghost use Rattle.std.specs.Option.{option_copied};
ghost use mathlib.Core.List.{IsPrefix};
ghost use Rattle.ready_core.specs.Verdicts.{AreVerdicts};
ghost use Rattle.state_core.specs.State.{state_of};
ghost use Rattle.site_shared.specs.Publishes.{arrive};
ghost use Rattle.watch_core.specs.Watching.{FollowsJournal};

use crate::sight::Sight;
use crate::viewer::Viewer;
use lattice_core::NoMemory;
use ready_core::Verdicts;
use replica_core::Replica;
use std::marker::Model;
use watch_core::Evaluator;

/// The verdicts under a gate on what a window saw. `Window::watch` makes it, and `Window::refresh` brings it up to
/// date. Contracts see its opening, what was seen, the site and the start of the opening, the gate, and the verdicts.
#[derive(Drop)]
pub struct Watch {
    evaluator: Evaluator,
    sight: Sight,
    site: u16,
    start: u32,
}

impl Model for Watch {
    ghost use Rattle.site_shared.specs.Publishes.{arrive};
    ghost use Rattle.site_shared.specs.Watches.{KeepsUp, Watched};

    ghost Value = { Watched };

    ghost view = { λ w. record {
      book = w.sight.seen.book;
      seen = w.sight.seen.log;
      site = w.site;
      start = w.start;
      gate = w.evaluator.gate;
      verdicts = w.evaluator.verdicts;
    } };

    ghost invariant = { λ w. KeepsUp w.evaluator (arrive w.sight.seen.log) };
}

impl Watch {
    ghost use Rattle.site_shared.specs.Watches.{HasVerdictsOf, IsBehind, IsSameWatch, IsShownTo, without_verdicts};

    /// The watch of an evaluator that follows what was seen.
    pub(crate) fn new(evaluator: Evaluator, sight: Sight, site: u16, start: u32) -> Watch
        requires { FollowsJournal evaluator (arrive sight.seen.log) }
        ensures { result ≡ record {
          book = sight.seen.book;
          seen = sight.seen.log;
          site = site;
          start = start;
          gate = evaluator.gate;
          verdicts = evaluator.verdicts;
        } }
    {
        Watch {
            evaluator,
            sight,
            site,
            start,
        }
    }

    /// The verdicts on what was seen; none where memory was refused to the last refresh. Takes no memory.
    pub fn verdicts(&self) -> Option<&Verdicts>
        ensures shown { option_copied result ≡ self.now.verdicts }
        ensures are { IfSome self.now.verdicts (AreVerdicts self.now.gate (state_of (arrive self.now.seen))) }
    {
        self.evaluator.verdicts()
    }

    /// The site and the start of its opening.
    pub(crate) fn origin(&self) -> (u16, u32)
        ensures { result ≡ (self.now.site, self.now.start) }
    {
        (self.site, self.start)
    }

    /// What was seen.
    pub(crate) fn sight(&self) -> &Sight
        ensures { (result.now.seen.book ≡ self.now.book) × (result.now.seen.log ≡ self.now.seen) }
    {
        &self.sight
    }

    /// Brings the verdicts up to those on a replica that has the publishes of a later sight. Where memory is refused
    /// there are none.
    pub(crate) fn follow(&mut self, replica: &Replica, sight: &Sight) -> Result<(), NoMemory>
        requires book { sight.now.seen.book ≡ self.old.book }
        requires later { IsPrefix self.old.seen sight.now.seen.log }
        requires replica { replica.now ≡ arrive sight.now.seen.log }
        ensures same { OnOk result (IsSameWatch self.old self.new) }
        ensures has { OnOk result (HasVerdictsOf sight.now.seen.log self.new) }
        ensures lost { OnErr result (self.new ≡ without_verdicts self.old) }
        ensures behind { OnErr result (IsBehind self.old sight.now.seen.log) }
    {
        self.evaluator.update(replica)?;
        self.sight = sight.again();
        Ok(())
    }

    /// Shows a replica that has what was seen, with the verdicts on it, to a viewer.
    pub(crate) fn show_to<V: Viewer>(&self, replica: &Replica, viewer: &mut V)
        requires gate { self.now.gate ≡ V.judged_by viewer.old }
        requires replica { replica.now ≡ arrive self.now.seen }
        requires there { IsSome self.now.verdicts }
        ensures { IsShownTo (V.views viewer.old) replica.now self.now viewer.new }
    {
        let Some(verdicts) = self.verdicts() else {
            unreachable!()
        };
        viewer.view(replica, verdicts);
    }
}
