//! What a condition asks and what an item's change has, as JSON.

ghost use Rattle.std.specs.Prelude.{List, OnOk, flat_map};
ghost use Rattle.serde_json.specs.Data.{Members};
ghost use Rattle.change_core.specs.Votes.{approvals_of};
ghost use Rattle.change_core.specs.VoteShown.{approval_shown};
ghost use Rattle.gate_rules.specs.Spelling.{IsObject, SpellsGate};
ghost use Rattle.gate_rules.specs.Wanted.{wanted_value};
ghost use Rattle.json.specs.Token.{Token};
ghost use Rattle.json_line.specs.Tokens.{AddsTokens};
ghost use Rattle.state_core.specs.Items.{IsItem};
ghost use Rattle.report_json.specs.Why.{SaysCondition, have_tokens, vote_tokens, votes_listed, want_tokens};

use change_core::{Approval, ChangeState};
use gate_rules::{Clause, Condition, Gate, wanted_text};
use json::Writer;
use json_line::{
    close_list, close_object, open_list, open_object, put_json, put_number, put_signed, put_text,
};
use lattice_core::NoMemory;
use state_core::{Item, State};
use std::alloc::Global;

/// Adds what the gate file asks, and what the item's change has.
pub(super) fn put_asked(
    alloc: Global,
    out: &mut Writer<Global>,
    file: &[u8],
    gate: &Gate,
    state: &State,
    item: Item,
    condition: Condition,
) -> Result<(), NoMemory>
    requires spelled { SpellsGate file.now gate.now }
    requires there { IsItem state.now item }
    ensures { OnOk result ((added : List Token) × AddsTokens out.old out.new added
        × SaysCondition file.now state.now item condition added) }
{
    put_want(alloc, out, file, gate, condition)?;
    let change = state.change(item.change).unwrap();
    let current = change.current().unwrap();
    put_have(out, change, current, condition.clause)?;
    Ok(())
}

/// Adds what the gate file has at the place of a condition.
fn put_want(
    alloc: Global,
    out: &mut Writer<Global>,
    file: &[u8],
    gate: &Gate,
    condition: Condition,
) -> Result<(), NoMemory>
    requires { SpellsGate file.now gate.now }
    ensures { OnOk result ((members : Members) × IsObject file.now members
        × AddsTokens out.old out.new (want_tokens (wanted_value condition members))) }
{
    match wanted_text(alloc, gate, file, condition)? {
        Some(json) => put_json(alloc, out, "want", json.as_str()),
        None => Ok(()),
    }
}

/// Adds what a change has of what a clause asks.
fn put_have(
    out: &mut Writer<Global>,
    change: &ChangeState,
    current: u32,
    clause: Clause,
) -> Result<(), NoMemory>
    ensures { OnOk result (AddsTokens out.old out.new (have_tokens clause change.now current)) }
{
    match clause {
        Clause::OpenState | Clause::StatusIn => put_text(out, "status", change.status().name()),
        Clause::CurrentSet => put_number(out, "current", u64::from(current)),
        Clause::Approval(_) => put_votes(out, change, current),
    }
}

/// Adds the list of the approvals on a patch set.
fn put_votes(out: &mut Writer<Global>, change: &ChangeState, set: u32) -> Result<(), NoMemory>
    ensures { OnOk result (AddsTokens out.old out.new (votes_listed (approvals_of change.now set))) }
{
    open_list(out, "votes")?;
    add_votes(out, change, set)?;
    close_list(out)?;
    Ok(())
}

/// Adds an object for each approval on a patch set.
fn add_votes(out: &mut Writer<Global>, change: &ChangeState, set: u32) -> Result<(), NoMemory>
    ensures { OnOk result (AddsTokens out.old out.new (flat_map vote_tokens (approvals_of change.now set))) }
{
    for approval in change.approvals(set) {
        add_vote(out, &approval)?;
    }
    Ok(())
}

/// Adds the object of an approval.
fn add_vote(out: &mut Writer<Global>, approval: &Approval<'_>) -> Result<(), NoMemory>
    ensures { OnOk result (AddsTokens out.old out.new (vote_tokens (approval_shown approval.now))) }
{
    open_object(out)?;
    put_text(out, "label", approval.label)?;
    put_text(out, "voter", approval.voter)?;
    put_signed(out, "value", i64::from(approval.value))?;
    close_object(out)?;
    Ok(())
}
