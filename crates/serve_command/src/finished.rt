//! Ends a site of the program: saves its record, and gives back its keeper.

ghost use Rattle.std.specs.Prelude.{◌≡◌, Err, List, None, Ok, Some};
ghost use Rattle.review_ops.specs.Operation.{Operation};
ghost use Rattle.serve_command.specs.Endings.{EndsAs};
ghost use Rattle.serve_command.specs.Leaving.{EndsBy, HasSaved, IsLeftOf, IsSavedOr, LeavesKept};

use super::command::Ended;
use super::fault::ProgramFault;
use super::save::Saves;
use replica_core::Replica;
use site_ledger::Keeps;
use site_serve::{EndedSite, Served};

/// A site of the program that has ended.
#[derive(Drop)]
pub struct Finished<K> {
    /// What keeps its operations.
    pub keeper: K,
    /// The start that it was run under, if it was run.
    pub start: Option<u32>,
    /// Its record at the end, if it was run to its end.
    pub left: Option<Replica>,
    pub ended: Result<(), Ended<'static>>,
}

/// The result of a site that couldn't be run.
pub fn unrun<K: Keeps>(keeper: K, ended: Ended<'static>) -> Finished<K>
    ensures kept { (begun : List Operation) → LeavesKept K.survives (K.holds keeper) begun result.keeper result.left }
    ensures known { K.is_known keeper → K.is_known result.keeper }
    ensures start { result.start ≡ None }
    ensures left { result.left ≡ None }
    ensures ended { result.ended ≡ Err ended.entry }
{
    keeper.what_it_has_survives();
    Finished {
        keeper,
        start: None,
        left: None,
        ended: Err(ended),
    }
}

/// Saves what a site has left, also where its output failed, or where it ended because its start is taken.
pub fn finish<S: Saves, K>(snapshot_file: &mut S, ended_site: EndedSite<K>) -> Finished<K>
    ensures keeper { result.keeper ≡ ended_site.keeper }
    ensures start { result.start ≡ Some ended_site.origin.1 }
    ensures left { IsLeftOf ended_site.served result.left }
    ensures saved { HasSaved S.saves snapshot_file.old result.left result.ended snapshot_file.new }
    ensures ends { EndsBy ended_site.served result.ended }
{
    let EndedSite {
        keeper,
        origin,
        served,
    } = ended_site;
    let start = Some(origin.1);
    match served {
        Ok(served) => Finished {
            keeper,
            start,
            ended: saved(snapshot_file, &served),
            left: Some(served.replica),
        },
        Err(fault) => Finished {
            keeper,
            start,
            left: None,
            ended: Err(Ended::Site(fault)),
        },
    }
}

/// Saves what a site has left. How the site ends.
fn saved<S: Saves>(snapshot_file: &mut S, served: &Served) -> Result<(), Ended<'static>>
    ensures saved { IsSavedOr S.saves snapshot_file.old served.now.replica result snapshot_file.new }
    ensures ends { EndsBy (Ok served.now) result }
{
    match snapshot_file.save(&served.replica) {
        Ok(()) => ending_of(served.is_start_taken, served.written),
        Err(_) => Err(Ended::Program(ProgramFault::NoSave)),
    }
}

/// How a site ends whose start is taken or not, and whose output took all that was printed or failed.
fn ending_of(is_start_taken: bool, written: bool) -> Result<(), Ended<'static>>
    ensures { EndsAs is_start_taken written result }
{
    if is_start_taken {
        Err(Ended::Program(ProgramFault::StartTaken))
    } else if written {
        Ok(())
    } else {
        Err(Ended::Unprinted)
    }
}
