//! The text of a state.

ghost use Rattle.std.specs.Prelude.{◌≡◌, ◌++◌, ◌<◌, ℕ, OnOk, IfOk, IsErrOf, MatchResult, flat_map, string_bytes, take};
ghost use Rattle.std.specs.Prelude.{length};
ghost use Rattle.std.specs.FinMap as finite;
ghost use Rattle.std.specs.Io.KnownBytes.{Appends};
ghost use Rattle.json.specs.Print.{quoted};
ghost use Rattle.change_core.specs.Parts.{patch_of, slot_of, sets_shown, votes_shown};
ghost use Rattle.state_core.specs.State.{state_shown};
ghost use Rattle.report_text.specs.Fault.{CountsStateFault};
ghost use Rattle.report_text.specs.StateText.{state_text, change_text, life_line, set_line, vote_line, parent_part};

use super::fault::WriteStateFault;
use byte_ends::{Drain, write_all};
use change_core::{ChangeState, Commit, Life, VoteSlot};
use chunk_list::JoinList;
use json::Writer;
use lattice_core::{JoinMap, Register};
use review_ops::Stamp;
use state_core::{SharedChange, State};
use std::alloc::{AllocError, Allocator};

/// Writes the state text: for each change a line with its status, and then lines for its newest abandon or restore, its
/// patch sets and its votes. Refusals: 1 `WriteFault`, the drain failed, and has taken what of the text went before; 2
/// `NoMemory`, nothing was written. It costs O(n) for a text of n bytes, which is collected before it is written.
pub fn write_state<A: Allocator + Copy, D: Drain>(
    state: &State<A>,
    drain: &mut D,
) -> Result<(), WriteStateFault>
    ensures ok { OnOk result (Appends (D.taken drain.old) (D.taken drain.new) (state_text state.now)) }
    // A prefix of the text was taken, not all.
    ensures cut { IsErrOf result WriteStateFault.WriteFault → (count : ℕ) × (count < length (state_text state.now))
        × Appends (D.taken drain.old) (D.taken drain.new) (take count (state_text state.now)) }
    ensures unwritten { IsErrOf result WriteStateFault.NoMemory → D.taken drain.new ≡ D.taken drain.old }
    ensures counted { MatchResult result
        (λ _. D.failed drain.new ≡ D.failed drain.old)
        (CountsStateFault (D.failed drain.old) (D.failed drain.new)) }
{
    let Ok(text) = text_of(state.allocator(), state.changes()) else {
        return Err(WriteStateFault::NoMemory);
    };
    match write_all(drain, text.as_bytes()) {
        Ok(()) => Ok(()),
        Err(_) => Err(WriteStateFault::WriteFault),
    }
}

/// The state text of changes.
fn text_of<A: Allocator + Copy>(
    alloc: A,
    changes: &JoinMap<u32, SharedChange<A>, A>,
) -> Result<String<A>, AllocError>
    ensures { IfOk result (λ text. string_bytes text ≡ state_text (state_shown changes.now)) }
{
    let mut text = String::new(alloc);
    for (number, change) in changes {
        write_change(&mut text, alloc, *number, change.get())?;
    }
    let count = changes.len();
    write!(text, "end {count}\n")?;
    Ok(text)
}

/// Writes the lines of a change.
fn write_change<A: Allocator + Copy>(
    text: &mut String<A>,
    alloc: A,
    number: u32,
    change: &ChangeState<A>,
) -> Result<(), AllocError>
    ensures { OnOk result (string_bytes text.new ≡ string_bytes text.old ++ change_text (number, change.now)) }
{
    let status = change.status().name();
    write!(text, "change {number} {status}\n")?;
    write_life(text, number, change.life())?;
    write_sets(text, alloc, number, change.sets())?;
    write_votes(text, number, change.all_votes())
}

/// Writes the line of the newest abandon or restore, if there is one.
fn write_life<A: Allocator + Copy>(
    text: &mut String<A>,
    number: u32,
    life: Option<(Stamp, Life)>,
) -> Result<(), AllocError>
    ensures { OnOk result (string_bytes text.new ≡ string_bytes text.old ++ life_line number life) }
{
    match life {
        None => Ok(()),
        Some((stamp, Life::Abandoned)) => write!(text, "life {number} abandoned {stamp}\n"),
        Some((stamp, Life::Restored)) => write!(text, "life {number} restored {stamp}\n"),
    }
}

/// Writes the lines of the patch sets.
fn write_sets<A: Allocator + Copy>(
    text: &mut String<A>,
    alloc: A,
    number: u32,
    sets: &JoinList<u32, Register<Stamp, Commit<A>>, A>,
) -> Result<(), AllocError>
    ensures { OnOk result (string_bytes text.new
        ≡ string_bytes text.old ++ flat_map (set_line number) (finite.entries (sets_shown sets.now))) }
{
    for (set, register) in sets {
        write_set(text, alloc, number, *set, register)?;
    }
    Ok(())
}

/// Writes the line of a patch set.
fn write_set<A: Allocator + Copy>(
    text: &mut String<A>,
    alloc: A,
    number: u32,
    set: u32,
    register: &Register<Stamp, Commit<A>>,
) -> Result<(), AllocError>
    ensures { OnOk result (string_bytes text.new
        ≡ string_bytes text.old ++ set_line number (set, (register.now.0, patch_of register.now.1))) }
{
    let stamp = register.key();
    let message = json_text(alloc, register.value().message.as_str())?;
    write!(text, "set {number},{set} {stamp} {message}")?;
    write_parent(text, register.value().parent)?;
    text.push_str("\n")?;
    Ok(())
}

/// Writes what says the parent, if there is one.
fn write_parent<A: Allocator + Copy>(
    text: &mut String<A>,
    parent: Option<u32>,
) -> Result<(), AllocError>
    ensures { OnOk result (string_bytes text.new ≡ string_bytes text.old ++ parent_part parent) }
{
    let Some(parent) = parent else {
        return Ok(());
    };
    write!(text, " parent {parent}")
}

/// The JSON text of a text.
fn json_text<A: Allocator + Copy>(alloc: A, plain: &str) -> Result<String<A>, AllocError>
    ensures { IfOk result (λ text. string_bytes text ≡ quoted plain.now) }
{
    let mut out = Writer::new(Vec::with_capacity(alloc, plain.len())?);
    out.string(plain)?;
    Ok(String::from_utf8(out.into_inner()).unwrap())
}

/// Writes the lines of the votes.
fn write_votes<A: Allocator + Copy>(
    text: &mut String<A>,
    number: u32,
    votes: &JoinList<VoteSlot<A>, Register<Stamp, i8>, A>,
) -> Result<(), AllocError>
    ensures { OnOk result (string_bytes text.new
        ≡ string_bytes text.old ++ flat_map (vote_line number) (finite.entries (votes_shown votes.now))) }
{
    for (slot, register) in votes {
        write_vote(text, number, slot, register)?;
    }
    Ok(())
}

/// Writes the line of a vote.
fn write_vote<A: Allocator + Copy>(
    text: &mut String<A>,
    number: u32,
    slot: &VoteSlot<A>,
    register: &Register<Stamp, i8>,
) -> Result<(), AllocError>
    ensures { OnOk result (string_bytes text.new
        ≡ string_bytes text.old ++ vote_line number (slot_of slot.now, (register.now.0, register.now.1))) }
{
    let set = slot.set;
    let label = slot.label.as_str();
    let voter = slot.voter.as_str();
    let value = register.value();
    let stamp = register.key();
    write!(
        text,
        "vote {number},{set} {label} {voter} {value} {stamp}\n"
    )
}
