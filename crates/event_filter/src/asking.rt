//! The changes that have to be queried.

ghost use Rattle.std.specs.Prelude.{◌≡◌, ◌≢◌, ◌↔◌, ◌⊎◌, ℕ, IfOk, OnOk, IsTrue, None, option_map, true};
ghost use Rattle.std.specs.BTreeSet.{contains};
ghost use Rattle.std.specs.List.{list_any};
ghost use Rattle.std.specs.Ordering.{nat_cmp};
ghost use Rattle.footer_text.specs.Footers.{MessageNeeds};
ghost use Rattle.review_ops.specs.Deed.{change_of};
ghost use Rattle.event_filter.specs.Asking.{Gains, AsksFor, IsAskedBy, IsAskedByEvent, IsAskedByNews, IsAskedByRow};
ghost use Rattle.event_filter.specs.Asking.{HasParent, IsChild, IsDoubtful, IsLeftBehind, IsNamedByMessage, IsNew};
ghost use Rattle.event_filter.specs.Asking.{IsOutdated, IsReplaced, IsReplacedSet, IsUnknown, LacksNeeded};
ghost use Rattle.event_filter.specs.Asking.{says_open};
ghost use Rattle.event_filter.specs.Recorded.{IsRecorded, change_at, patch_at};
ghost use Rattle.change_core.specs.Views.{status_of};
ghost use Rattle.change_core.specs.declared.life.Status.TheVariants.{Abandoned, New};

use super::recorded::is_recorded;
use change_core::{ChangeState, Status};
use footer_text::{Bases, depends};
use gerrit_events::{Finding, ParsedLine, Part};
use lattice_core::NoMemory;
use review_ops::{Body, Draft};
use state_core::State;
use std::alloc::Global;
use std::collections::BTreeSet;

/// The changes that have to be queried because of a line: (1) the change of an event that has a new patch set, restores
/// a change that the record has as abandoned, has a vote or a withdrawal that the record lacks on a replaced patch set
/// (Gerrit may copy it to the current one, and has no event for that), shows no vote where the record has one, or is
/// lost in part; (2) if the new patch set isn't the first, the open changes whose current patch set has that change as
/// its parent, since it may outdate them; and also where an event shows such a patch set that the record has, unless it
/// is replaced; (3) of a new patch set, and of the patch set of an open row, the parent and the changes that the message
/// names under these bases, if the record has neither a patch set nor a merge of them. Refusal: memory was refused. It
/// costs O(n + m log k) for n bytes of messages and m of such changes, of k changes of the record, and O(k) more where an
/// event shows a patch set that isn't the first.
pub fn asked(
    alloc: Global,
    state: &State,
    bases: Option<&Bases>,
    parsed: &ParsedLine,
) -> Result<BTreeSet<u32>, NoMemory>
    ensures { IfOk result (λ asks. (number : ℕ) → (contains nat_cmp asks number ≡ true)
        ↔ AsksFor state.now (option_map (λ bases. bases.now) bases.entry) parsed.now number) }
{
    let mut asks = BTreeSet::new(alloc);
    let is_open = says_open(parsed.findings.as_slice());
    for finding in parsed.findings.as_slice() {
        add_asked(
            alloc,
            state,
            bases,
            parsed.part,
            is_open,
            finding,
            &mut asks,
        )?;
    }
    Ok(asks)
}

/// Whether a row says that its change is open.
fn says_open(findings: &[Finding]) -> bool
    ensures { result ≡ list_any says_open findings.now }
{
    findings.iter().any(|finding| is_open(finding))
}

/// Whether a finding says that a change is open.
fn is_open(finding: &Finding) -> bool
    ensures { result ≡ says_open finding.now }
{
    match finding {
        Finding::Brings(body) => matches!(body.draft(), Draft::Restore { .. }),
        _ => false,
    }
}

/// Adds what a finding asks for.
fn add_asked(
    alloc: Global,
    state: &State,
    bases: Option<&Bases>,
    part: Part,
    is_open: bool,
    finding: &Finding,
    asks: &mut BTreeSet<u32>,
) -> Result<(), NoMemory>
    ensures { OnOk result (Gains (IsAskedBy state.now (option_map (λ bases. bases.now) bases.entry) part is_open finding.now)
        asks.old asks.new) }
{
    match part {
        Part::Event(change) => add_by_event(alloc, state, bases, change, finding, asks),
        Part::Row(_) => {
            if is_open {
                return add_by_row(alloc, state, bases, finding, asks);
            }
            Ok(())
        }
        _ => Ok(()),
    }
}

/// Adds what a finding of an event of this change asks for.
fn add_by_event(
    alloc: Global,
    state: &State,
    bases: Option<&Bases>,
    change: Option<u32>,
    finding: &Finding,
    asks: &mut BTreeSet<u32>,
) -> Result<(), NoMemory>
    ensures { OnOk result (Gains (IsAskedByEvent state.now (option_map (λ bases. bases.now) bases.entry) change finding.now)
        asks.old asks.new) }
{
    match finding {
        Finding::Brings(body) => add_new(alloc, state, bases, body, asks),
        Finding::Shows(body) => add_shown(alloc, state, bases, body, asks),
        Finding::Lists(_) => Ok(()),
        Finding::Refuses(_) => add_change(change, asks),
    }
}

/// Adds what is asked for by what is shown: by what is new; its change, where it leaves a vote in doubt; and what its
/// patch set may outdate.
fn add_shown(
    alloc: Global,
    state: &State,
    bases: Option<&Bases>,
    body: &Body,
    asks: &mut BTreeSet<u32>,
) -> Result<(), NoMemory>
    ensures { OnOk result (Gains
        (λ number. (IsAskedByNews state.now (option_map (λ bases. bases.now) bases.entry) body.now number
        ⊎ (IsDoubtful state.now body.now × (number ≡ change_of body.now)))
        ⊎ IsLeftBehind state.now body.now number)
        asks.old asks.new) }
{
    add_news_and_doubt(alloc, state, bases, body, asks)?;
    add_left_behind(state, body, asks)
}

/// Adds what is asked for by what is new, and its change, where it leaves a vote in doubt.
fn add_news_and_doubt(
    alloc: Global,
    state: &State,
    bases: Option<&Bases>,
    body: &Body,
    asks: &mut BTreeSet<u32>,
) -> Result<(), NoMemory>
    ensures { OnOk result (Gains
        (λ number. IsAskedByNews state.now (option_map (λ bases. bases.now) bases.entry) body.now number
        ⊎ (IsDoubtful state.now body.now × (number ≡ change_of body.now)))
        asks.old asks.new) }
{
    add_new(alloc, state, bases, body, asks)?;
    if is_doubtful(state, body)? {
        asks.insert(body.change())?;
    }
    Ok(())
}

/// Adds what a patch set may outdate that isn't replaced, whether it is new or not.
fn add_left_behind(state: &State, body: &Body, asks: &mut BTreeSet<u32>) -> Result<(), NoMemory>
    ensures { OnOk result (Gains (IsLeftBehind state.now body.now) asks.old asks.new) }
{
    if is_replaced_set(state, body) {
        return Ok(());
    }
    add_outdated(state, body, asks)
}

/// Whether a body is of a patch set before the current one of its change.
fn is_replaced_set(state: &State, body: &Body) -> bool
    ensures { IsTrue result ↔ IsReplacedSet state.now body.now }
{
    match body.draft() {
        Draft::PatchSet { change, set, .. } => is_replaced(state, *change, *set),
        _ => false,
    }
}

/// Adds a change, where there is one.
fn add_change(change: Option<u32>, asks: &mut BTreeSet<u32>) -> Result<(), NoMemory>
    ensures { OnOk result (Gains (λ number. change ≡ Some number) asks.old asks.new) }
{
    if let Some(number) = change {
        asks.insert(number)?;
    }
    Ok(())
}

/// Adds what is asked for by what is new: its change, what it lacks, and what it may outdate.
fn add_new(
    alloc: Global,
    state: &State,
    bases: Option<&Bases>,
    body: &Body,
    asks: &mut BTreeSet<u32>,
) -> Result<(), NoMemory>
    ensures { OnOk result (Gains (IsAskedByNews state.now (option_map (λ bases. bases.now) bases.entry) body.now)
        asks.old asks.new) }
{
    if !is_new(state, body)? {
        return Ok(());
    }
    asks.insert(body.change())?;
    add_lacks(alloc, state, bases, body, asks)?;
    add_outdated(state, body, asks)
}

/// Whether the record lacks a patch set, has a restored change as abandoned, or lacks a vote or a withdrawal on a
/// replaced patch set.
fn is_new(state: &State, body: &Body) -> Result<bool, NoMemory>
    ensures { IfOk result (λ new. IsTrue new ↔ IsNew state.now body.now) }
{
    match body.draft() {
        Draft::PatchSet { change, set, .. } => Ok(is_new_set(state, *change, *set)),
        Draft::Restore { change } => Ok(is_abandoned(state, *change)),
        Draft::Vote { change, set, .. } => is_late(state, *change, *set, body),
        Draft::Withdraw { change, set, .. } => is_late(state, *change, *set, body),
        _ => Ok(false),
    }
}

/// Whether a body withdraws a vote that the record has. Where an event shows it, only Gerrit can say which of them is
/// out of date.
fn is_doubtful(state: &State, body: &Body) -> Result<bool, NoMemory>
    ensures { IfOk result (λ doubtful. IsTrue doubtful ↔ IsDoubtful state.now body.now) }
{
    match body.draft() {
        Draft::Withdraw { .. } => lacks(state, body),
        _ => Ok(false),
    }
}

/// Whether the record lacks what a body says.
fn lacks(state: &State, body: &Body) -> Result<bool, NoMemory>
    ensures { IfOk result (λ lacks. IsTrue lacks ↔ (¬ IsRecorded state.now body.now)) }
{
    let said = is_recorded(state, body)?;
    Ok(!said)
}

/// Whether a change has a later patch set than this one, and the record lacks what the body says.
fn is_late(state: &State, change: u32, set: u32, body: &Body) -> Result<bool, NoMemory>
    ensures { IfOk result
        (λ late. IsTrue late ↔ (IsReplaced (change_at state.now change) set × ¬ IsRecorded state.now body.now)) }
{
    if !is_replaced(state, change, set) {
        return Ok(false);
    }
    let said = is_recorded(state, body)?;
    Ok(!said)
}

/// Whether a change has a later patch set than this one.
fn is_replaced(state: &State, change: u32, set: u32) -> bool
    ensures { IsTrue result ↔ IsReplaced (change_at state.now change) set }
{
    match state.change(change) {
        None => is_before(&ChangeState::new(state.allocator()), set),
        Some(found) => is_before(found, set),
    }
}

/// Whether a patch set is before the current one of its change.
fn is_before(change: &ChangeState, set: u32) -> bool
    ensures { IsTrue result ↔ IsReplaced change.now set }
{
    match change.current() {
        None => false,
        Some(current) => set < current,
    }
}

/// Whether the record hasn't a patch set.
fn is_new_set(state: &State, change: u32, set: u32) -> bool
    ensures { IsTrue result ↔ (patch_at (change_at state.now change) set ≡ None) }
{
    match state.change(change) {
        None => lacks_set(&ChangeState::new(state.allocator()), set),
        Some(found) => lacks_set(found, set),
    }
}

/// Whether the record has a change as abandoned.
fn is_abandoned(state: &State, change: u32) -> bool
    ensures { IsTrue result ↔ (status_of (change_at state.now change) ≡ Abandoned) }
{
    match state.change(change) {
        None => false,
        Some(found) => matches!(found.status(), Status::Abandoned),
    }
}

/// Whether a change hasn't a patch set.
fn lacks_set(change: &ChangeState, set: u32) -> bool
    ensures { IsTrue result ↔ (patch_at change.now set ≡ None) }
{
    change.sets().get(&set).is_none()
}

/// Adds what a patch set may outdate: the first of a change outdates nothing.
fn add_outdated(state: &State, body: &Body, asks: &mut BTreeSet<u32>) -> Result<(), NoMemory>
    ensures { OnOk result (Gains (IsOutdated state.now body.now) asks.old asks.new) }
{
    match body.draft() {
        Draft::PatchSet { change, set, .. } => {
            if *set > 1 {
                return add_children(state, *change, asks);
            }
            Ok(())
        }
        _ => Ok(()),
    }
}

/// Adds the open changes whose current patch set has this change as its parent.
fn add_children(state: &State, parent: u32, asks: &mut BTreeSet<u32>) -> Result<(), NoMemory>
    ensures { OnOk result (Gains (λ number. IsChild (change_at state.now number) parent) asks.old asks.new) }
{
    for (number, change) in state.changes() {
        add_child(*number, change.get(), parent, asks)?;
    }
    Ok(())
}

/// Adds a change, where it is open, and its current patch set has this parent.
fn add_child(
    number: u32,
    change: &ChangeState,
    parent: u32,
    asks: &mut BTreeSet<u32>,
) -> Result<(), NoMemory>
    ensures { OnOk result (Gains (λ other. (number ≡ other) × IsChild change.now parent) asks.old asks.new) }
{
    if is_child(change, parent) {
        asks.insert(number)?;
    }
    Ok(())
}

/// Whether a change is open, and its current patch set has this parent.
fn is_child(change: &ChangeState, parent: u32) -> bool
    ensures { IsTrue result ↔ IsChild change.now parent }
{
    change.is_open() && has_parent(change, parent)
}

/// Whether the current patch set of a change has this parent.
fn has_parent(change: &ChangeState, parent: u32) -> bool
    ensures { IsTrue result ↔ HasParent change.now parent }
{
    match change.current() {
        None => false,
        Some(set) => change.parent(set) == Some(parent),
    }
}

/// Adds what a finding of an open row asks for.
fn add_by_row(
    alloc: Global,
    state: &State,
    bases: Option<&Bases>,
    finding: &Finding,
    asks: &mut BTreeSet<u32>,
) -> Result<(), NoMemory>
    ensures { OnOk result (Gains (IsAskedByRow state.now (option_map (λ bases. bases.now) bases.entry) finding.now)
        asks.old asks.new) }
{
    match finding {
        Finding::Brings(body) => add_lacks(alloc, state, bases, body, asks),
        _ => Ok(()),
    }
}

/// Adds what a patch set lacks.
fn add_lacks(
    alloc: Global,
    state: &State,
    bases: Option<&Bases>,
    body: &Body,
    asks: &mut BTreeSet<u32>,
) -> Result<(), NoMemory>
    ensures { OnOk result (Gains (LacksNeeded state.now (option_map (λ bases. bases.now) bases.entry) body.now) asks.old asks.new) }
{
    let Draft::PatchSet {
        change,
        message,
        parent,
        ..
    } = body.draft()
    else {
        return Ok(());
    };
    add_parent(state, *change, *parent, asks)?;
    match bases {
        None => Ok(()),
        Some(bases) => add_needs(alloc, state, bases, *change, message.as_str(), asks),
    }
}

/// Adds the parent of a change, where there is one, and it is unknown.
fn add_parent(
    state: &State,
    change: u32,
    parent: Option<u32>,
    asks: &mut BTreeSet<u32>,
) -> Result<(), NoMemory>
    ensures { OnOk result (Gains (λ number. (parent ≡ Some number) × (number ≢ change) × IsUnknown state.now number)
        asks.old asks.new) }
{
    match parent {
        None => Ok(()),
        Some(parent) => add_unknown(state, change, parent, asks),
    }
}

/// Adds what a message needs that is unknown.
fn add_needs(
    alloc: Global,
    state: &State,
    bases: &Bases,
    change: u32,
    message: &str,
    asks: &mut BTreeSet<u32>,
) -> Result<(), NoMemory>
    ensures { OnOk result (Gains (λ number. MessageNeeds bases.now change message.now number
        × (number ≢ change) × IsUnknown state.now number) asks.old asks.new) }
{
    let footers = depends(alloc, bases, change, message)?;
    for need in footers.needs.as_slice() {
        add_unknown(state, change, *need, asks)?;
    }
    Ok(())
}

/// Adds a change, where it is unknown and another than this one.
fn add_unknown(
    state: &State,
    change: u32,
    number: u32,
    asks: &mut BTreeSet<u32>,
) -> Result<(), NoMemory>
    ensures { OnOk result (Gains (λ other. (number ≡ other) × (other ≢ change) × IsUnknown state.now other)
        asks.old asks.new) }
{
    if number != change && !state.is_known(number) && !state.is_merged(number) {
        asks.insert(number)?;
    }
    Ok(())
}
