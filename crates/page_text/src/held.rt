//! The causes that hold up items, as the metrics count them. An item that is over isn't held up.

ghost use Rattle.std.specs.Prelude.{◌≡◌, ◌++◌, IfOk, OnOk, string_bytes};
ghost use Rattle.page_text.specs.Metrics.{all_held, held_from};
ghost use Rattle.page_text.specs.Held.{held_words, is_held, is_held_by};

use gate_rules::{Clause, Condition, Gate, Side};
use lattice_core::NoMemory;
use ready_core::Refusal;
use std::alloc::Global;

/// What an item is held up by.
#[derive(Clone, Copy)]
pub enum Held {
    /// The approval of this number, from 1, on a side.
    Approval(Side, usize),
    /// A cycle.
    Cycle,
    /// A change that isn't known.
    Unknown,
    /// An item that isn't ready.
    Dependency,
}

/// All causes under a gate: the approvals that it requires and that it rejects, in their order, and then the other
/// three.
pub fn all_held(alloc: Global, gate: &Gate) -> Result<Vec<Held>, NoMemory>
    ensures { IfOk result (λ all. all.items ≡ all_held gate.now) }
{
    let mut all = Vec::new(alloc);
    add_all(&mut all, gate)?;
    Ok(all)
}

/// Adds all of these.
fn add_all(all: &mut Vec<Held>, gate: &Gate) -> Result<(), NoMemory>
    ensures { OnOk result (all.new.items ≡ all.old.items ++ all_held gate.now) }
{
    add_approvals(
        all,
        Side::Require,
        gate.clauses(Side::Require).approvals().len(),
    )?;
    add_approvals(
        all,
        Side::Reject,
        gate.clauses(Side::Reject).approvals().len(),
    )?;
    all.extend_from_slice(&[Held::Cycle, Held::Unknown, Held::Dependency])?;
    Ok(())
}

/// Adds so many approvals of a side.
fn add_approvals(all: &mut Vec<Held>, side: Side, count: usize) -> Result<(), NoMemory>
    ensures { OnOk result (all.new.items ≡ all.old.items ++ held_from side 1 count) }
{
    for place in 0..count {
        all.push(Held::Approval(side, place + 1))?;
    }
    Ok(())
}

/// Whether a refusal has this cause.
pub fn is_held(held: Held, refusal: Refusal) -> bool
    ensures { result ≡ is_held held refusal }
{
    match refusal {
        Refusal::Own(condition) => is_held_by(held, condition),
        Refusal::Cycle => matches!(held, Held::Cycle),
        Refusal::Unknown(_) => matches!(held, Held::Unknown),
        Refusal::Dependency(_) => matches!(held, Held::Dependency),
    }
}

/// Whether a condition holds an item so.
fn is_held_by(held: Held, condition: Condition) -> bool
    ensures { result ≡ is_held_by held condition }
{
    match held {
        Held::Approval(side, number) => {
            side == condition.side && condition.clause == Clause::Approval(number)
        }
        Held::Cycle | Held::Unknown | Held::Dependency => false,
    }
}

/// The words of what holds an item: of an approval those of its refusal, else the refusal's first word.
pub fn held_words(alloc: Global, held: Held) -> Result<String, NoMemory>
    ensures { IfOk result (λ words. string_bytes words ≡ held_words held) }
{
    match held {
        Held::Approval(side, number) => approval_words(alloc, side, number),
        Held::Cycle => words(alloc, "cycle"),
        Held::Unknown => words(alloc, "unknown"),
        Held::Dependency => words(alloc, "dependency"),
    }
}

/// Words as they are.
fn words(alloc: Global, text: &str) -> Result<String, NoMemory>
    ensures { IfOk result (λ words. string_bytes words ≡ text.now) }
{
    Ok(String::from_str(alloc, text)?)
}

/// The words of an approval.
fn approval_words(alloc: Global, side: Side, number: usize) -> Result<String, NoMemory>
    ensures { IfOk result (λ words. string_bytes words ≡ held_words (Held.Approval side number)) }
{
    let side = side.name();
    Ok(format!(in alloc; "{side} approval {number}")?)
}
