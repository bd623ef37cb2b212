//! The order in which a record processes the findings of a line.

ghost use Rattle.std.specs.Prelude.{◌≡◌, IfOk, filter, map, not};
ghost use Rattle.review_ops.specs.Draft.{deed_of};
ghost use Rattle.event_filter.specs.Lowering.{AreAllLowering, AreLowering, AreParted, ArePutInOrder};
ghost use Rattle.event_filter.specs.Lowering.{is_loss, is_new_status, lowers, lowers_change};
ghost use Rattle.gerrit_events.specs.declared.finding.Finding.TheVariants.{Brings};

use super::bringing::withdrawals;
use super::recorded::score_by;
use change_core::{ChangeState, Status};
use gerrit_events::Finding;
use lattice_core::NoMemory;
use review_ops::{Body, Draft};
use state_core::State;
use std::alloc::Global;
use std::slice;

/// The findings of a line, in the order in which a record has to process them: first each body that lowers what the
/// record says, and then all findings. A vote below its voter's score does, and the withdrawal of a score above 0, also
/// of one that a listing doesn't list, and an abandon of an open change. The bodies of a line are taken in one after the
/// other, and a site reports in between. In this order no patch set is ready for a moment because an approval came
/// before another one was withdrawn, or a veto was withdrawn before an approval was, also if a line is taken in only in
/// part: in between no score is above both what it was and what it becomes (`what_comes_first_raises_nothing`,
/// `nothing_is_above_both`). A body that is processed twice adds nothing the second time. Refusal: memory was refused.
/// It costs O(log n + m) for each body, for n changes, patch sets and votes of the record, and m bytes of findings.
pub fn lowering_first(
    alloc: Global,
    state: &State,
    findings: Vec<Finding>,
) -> Result<Vec<Finding>, NoMemory>
    ensures { IfOk result (λ met. ArePutInOrder state.now findings.items met.items) }
{
    let mut findings = findings;
    let bodies = all_lowering(alloc, state, findings.as_slice())?;
    let mut met = as_findings(alloc, bodies)?;
    met.append(&mut findings)?;
    Ok(met)
}

/// The findings of a line of an answer in two parts: what a record processes at once, namely each body that lowers what
/// it says, as `lowering_first` has it, and the losses of the line; and the rest, which waits until the answer is whole.
/// A later row may have the veto of what an item of this one depends on, and an answer that breaks off hasn't that row.
/// Refusal: memory was refused. It costs what `lowering_first` costs.
pub fn parted(
    alloc: Global,
    state: &State,
    findings: Vec<Finding>,
) -> Result<(Vec<Finding>, Vec<Finding>), NoMemory>
    ensures { IfOk result (λ parts. AreParted state.now findings.items parts.0.items parts.1.items) }
{
    let bodies = all_lowering(alloc, state, findings.as_slice())?;
    let mut first = as_findings(alloc, bodies)?;
    let mut losses = losses_of(alloc, findings.as_slice())?;
    first.append(&mut losses)?;
    let later = without_losses(alloc, findings)?;
    Ok((first, later))
}

/// The losses among findings.
fn losses_of(alloc: Global, findings: &[Finding]) -> Result<Vec<Finding>, NoMemory>
    ensures { IfOk result (λ losses. losses.items ≡ filter is_loss findings.now) }
{
    let mut losses = Vec::new(alloc);
    for finding in findings {
        if let Finding::Refuses(fault) = finding {
            losses.push(Finding::Refuses(*fault))?;
        }
    }
    Ok(losses)
}

/// Findings without their losses.
fn without_losses(alloc: Global, findings: Vec<Finding>) -> Result<Vec<Finding>, NoMemory>
    ensures { IfOk result (λ kept. kept.items ≡ filter (λ finding. not (is_loss finding)) findings.items) }
{
    let mut kept = Vec::new(alloc);
    for finding in findings {
        if !is_loss(&finding) {
            kept.push(finding)?;
        }
    }
    Ok(kept)
}

/// Whether a finding is a loss.
fn is_loss(finding: &Finding) -> bool
    ensures { result ≡ is_loss finding.now }
{
    match finding {
        Finding::Brings(_) | Finding::Shows(_) | Finding::Lists(_) => false,
        Finding::Refuses(_) => true,
    }
}

/// Bodies as findings.
fn as_findings(alloc: Global, bodies: Vec<Body>) -> Result<Vec<Finding>, NoMemory>
    ensures { IfOk result (λ findings. findings.items ≡ map Brings bodies.items) }
{
    let mut findings = Vec::new(alloc);
    for body in bodies {
        findings.push(Finding::Brings(body))?;
    }
    Ok(findings)
}

/// The bodies of findings that lower what the record says.
fn all_lowering(alloc: Global, state: &State, findings: &[Finding]) -> Result<Vec<Body>, NoMemory>
    ensures { IfOk result (λ bodies. AreAllLowering state.now findings.now bodies.items) }
{
    let mut bodies = Vec::new(alloc);
    for finding in findings {
        let mut more = lowering(alloc, state, finding)?;
        bodies.append(&mut more)?;
    }
    Ok(bodies)
}

/// The bodies of a finding that lower what the record says.
fn lowering(alloc: Global, state: &State, finding: &Finding) -> Result<Vec<Body>, NoMemory>
    ensures { IfOk result (λ bodies. AreLowering state.now finding.now bodies.items) }
{
    match finding {
        Finding::Brings(body) => those_lowering(alloc, state, slice::from_ref(body)),
        Finding::Lists(listing) => {
            let gone = withdrawals(alloc, state, listing)?;
            those_lowering(alloc, state, gone.as_slice())
        }
        Finding::Shows(_) | Finding::Refuses(_) => Ok(Vec::new(alloc)),
    }
}

/// Those bodies that lower what the record says.
fn those_lowering(alloc: Global, state: &State, bodies: &[Body]) -> Result<Vec<Body>, NoMemory>
    ensures { IfOk result (λ found. found.items ≡ filter (lowers state.now) bodies.now) }
{
    let mut found = Vec::new(alloc);
    for body in bodies {
        if lowers(state, body)? {
            found.push(body.copy()?)?;
        }
    }
    Ok(found)
}

/// Whether a body lowers what the record says.
fn lowers(state: &State, body: &Body) -> Result<bool, NoMemory>
    ensures { IfOk result (λ does. does ≡ lowers state.now body.now) }
{
    match state.change(body.change()) {
        Some(change) => lowers_change(change, body.draft()),
        None => lowers_change(&ChangeState::new(state.allocator()), body.draft()),
    }
}

/// Whether a draft lowers what a change has.
fn lowers_change(change: &ChangeState, draft: &Draft) -> Result<bool, NoMemory>
    ensures { IfOk result (λ does. does ≡ lowers_change change.now (deed_of draft.now)) }
{
    match draft {
        Draft::Vote {
            set,
            label,
            voter,
            value,
            ..
        } => Ok(*value < score_by(change, *set, label, voter)?),
        Draft::Withdraw {
            set,
            label,
            voter,
            ..
        } => Ok(0 < score_by(change, *set, label, voter)?),
        Draft::Abandon { .. } => Ok(is_new(change.status())),
        Draft::PatchSet { .. } | Draft::Restore { .. } | Draft::Merged { .. } => Ok(false),
    }
}

/// Whether a change with this status is open.
fn is_new(status: Status) -> bool
    ensures { result ≡ is_new_status status }
{
    match status {
        Status::New => true,
        Status::Abandoned | Status::Merged => false,
    }
}
