//! Begins the record of a site with a journal.

ghost use Rattle.std.specs.Prelude.{◌≡◌, ◌++◌, ◌∷◌, [], IfErr, IfOk, IfSome, IsSome, List, OnOk};
ghost use Rattle.console.specs.Showing.{error_output};
ghost use Rattle.replica_core.specs.Sets.{IsSameSet};
ghost use Rattle.review_ops.specs.Operation.{Operation};
ghost use Rattle.site_journal.specs.Book.{IsHolding};
ghost use Rattle.site_journal.specs.Tape.{IsAtStart};
ghost use Rattle.serve_command.specs.Beginning.{HasSurvivors, IsAdded, IsOfSite, IsRecordBegun, IsUnbegun};
ghost use Rattle.serve_command.specs.Beginning.{SaysTornOf, lacking_of};

use super::command::Ended;
use super::fault::ProgramFault;
use super::tape::TapeFault;
use byte_ends::Drain;
use console::show_torn;
use line_batches::Batches;
use replica_core::Replica;
use review_ops::Op;
use site_journal::{Journal, JournalFault, KeepFault, Tape, journals_have_one_reading};
use site_serve::ServeFault;
use std::alloc::Global;

/// How many operations of a snapshot are added to a journal at once.
const BATCH: usize = 4096;

/// Begins a site's record by a journal on a tape that was just opened, whose lines are read in batches: it has what the
/// journal says and what was loaded beside, which is added to the journal where that lacks it, and synced. So the
/// journal says just the record, and the record has whatever was published by a site whose journal a crash left so. How
/// many bytes of a torn line were cut off is written to `errors`. It costs O(n log n) for n operations, and a sync for
/// each 4,096 that are added.
pub fn begin<B: Batches, T: Tape + Drop, E: Drain>(
    alloc: Global,
    batches: &B,
    tape: T,
    loaded: Replica,
    errors: &mut E,
) -> Result<(Journal<T>, Replica), Ended<'static>>
    requires { IsAtStart (T.image tape) (T.left tape) }
    ensures kept { IfOk result (λ begun. (ops : List Operation) × IsHolding begun.0 ops × IsSameSet begun.1 ops) }
    ensures known { IfOk result (λ begun. IsSome (T.image tape) → IsSome begun.0.image) }
    ensures whole { IfOk result (λ begun. IfSome (T.image tape) (λ i. IsRecordBegun i.contents loaded begun.1)) }
    ensures survivors { IfOk result (λ begun. IfSome (T.image tape) (λ i. HasSurvivors i.contents begun.1)) }
    ensures torn { OnOk result (IfSome (T.image tape) (λ i. SaysTornOf
        (λ output. error_output (E.taken output) (E.failed output)) i.contents errors.old errors.new)) }
    ensures unbegun { IfErr result (IsUnbegun (T.image tape) errors.old errors.new) }
{
    journals_have_one_reading();
    open_and_add(alloc, batches, tape, loaded, errors)
}

/// Opens a journal, and adds to it and to the record what was loaded.
fn open_and_add<B: Batches, T: Tape + Drop, E: Drain>(
    alloc: Global,
    batches: &B,
    tape: T,
    loaded: Replica,
    errors: &mut E,
) -> Result<(Journal<T>, Replica), Ended<'static>>
    requires { IsAtStart (T.image tape) (T.left tape) }
    ensures kept { IfOk result (λ begun. (ops : List Operation) × IsHolding begun.0 ops × IsSameSet begun.1 ops) }
    ensures known { IfOk result (λ begun. IsSome (T.image tape) → IsSome begun.0.image) }
    ensures whole { IfOk result (λ begun. IfSome (T.image tape) (λ i. IsRecordBegun i.contents loaded begun.1)) }
    ensures torn { OnOk result (IfSome (T.image tape) (λ i. SaysTornOf
        (λ output. error_output (E.taken output) (E.failed output)) i.contents errors.old errors.new)) }
    ensures unbegun { IfErr result (IsUnbegun (T.image tape) errors.old errors.new) }
{
    match Journal::open_by(alloc, batches, tape) {
        Ok(started) => {
            show_torn(alloc, started.torn, errors);
            add_loaded(alloc, started.journal, started.replica, loaded)
        }
        Err(fault) => Err(Ended::Journal(fault)),
    }
}

/// Adds to a record, and to its journal, what was loaded and they lack.
fn add_loaded<T: Tape + Drop>(
    alloc: Global,
    journal: Journal<T>,
    replica: Replica,
    loaded: Replica,
) -> Result<(Journal<T>, Replica), Ended<'static>>
    ensures kept { (before : List Operation) → IsHolding journal before
        → IfOk result (λ begun. IsHolding begun.0 (before ++ lacking_of replica loaded)) }
    ensures known { IfOk result (λ begun. IsSome journal.image → IsSome begun.0.image) }
    ensures both { IfOk result (λ begun. IsSameSet begun.1 (replica ++ loaded)) }
    ensures site { IfErr result IsOfSite }
{
    let (mut journal, mut replica) = (journal, replica);
    match add_lacking(alloc, &mut journal, &replica, &loaded) {
        Ok(()) => match replica.absorb(loaded) {
            Ok(()) => Ok((journal, replica)),
            Err(_) => Err(Ended::Site(ServeFault::NoMemory)),
        },
        Err(fault) => Err(Ended::Site(fault)),
    }
}

/// How a site ends if its journal file can't be opened.
pub fn tape_fault(fault: TapeFault) -> Ended<'static> {
    match fault {
        TapeFault::Locked => Ended::Program(ProgramFault::Locked),
        TapeFault::Failed => Ended::Journal(JournalFault::Failed),
    }
}

/// Adds to a journal what another record has and that of the journal lacks.
fn add_lacking<T: Tape>(
    alloc: Global,
    journal: &mut Journal<T>,
    replica: &Replica,
    loaded: &Replica,
) -> Result<(), ServeFault>
    ensures { OnOk result (IsAdded journal.old (lacking_of replica.now loaded.now) journal.new []) }
{
    let mut lacking = Vec::new(alloc);
    for place in 0..loaded.len() {
        let op = loaded.arrival(place);
        if !replica.has(op) {
            gather(journal, &mut lacking, op)?;
        }
    }
    add_all(journal, &mut lacking)
}

/// Adds an operation to the batch, and appends the batch to the journal when it is full.
fn gather<T: Tape>(
    journal: &mut Journal<T>,
    gathered: &mut Vec<Op>,
    op: &Op,
) -> Result<(), ServeFault>
    ensures { OnOk result (IsAdded journal.old (gathered.old.items ++ op.now ∷ []) journal.new gathered.new.items) }
{
    let Ok(op) = op.copy() else {
        return Err(ServeFault::NoMemory);
    };
    if gathered.push(op).is_err() {
        return Err(ServeFault::NoMemory);
    }
    if gathered.len() < BATCH {
        return Ok(());
    }
    add_all(journal, gathered)
}

/// Adds the operations that are gathered to a journal, if there are any.
fn add_all<T: Tape>(journal: &mut Journal<T>, gathered: &mut Vec<Op>) -> Result<(), ServeFault>
    ensures added { OnOk result (IsAdded journal.old gathered.old.items journal.new []) }
    ensures none { OnOk result (gathered.new.items ≡ []) }
{
    if gathered.is_empty() {
        return Ok(());
    }
    match journal.append(gathered.as_slice()) {
        Ok(()) => {
            gathered.clear();
            Ok(())
        }
        Err(KeepFault::NoMemory) => Err(ServeFault::NoMemory),
        Err(_) => Err(ServeFault::NoJournal),
    }
}
