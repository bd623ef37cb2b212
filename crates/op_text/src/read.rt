//! Reads the texts of bodies and operations.

ghost use Rattle.std.specs.Prelude.{◌≡◌, ◌≢◌, ◌<◌, ◌^◌, ℕ, List, Some, IfOk, IfErr, IfSome, IsSome, IsSomeAnd};
ghost use Rattle.std.specs.Prelude.{MatchResult, FitsSigned, option_map, string_bytes};
ghost use Rattle.std.specs.Int.{w8};
ghost use Rattle.serde_json.specs.Find.{get_member, as_str};
ghost use Rattle.serde_json.specs.View.{members_view, view};
ghost use Rattle.review_ops.specs.Deed.{Deed};
ghost use Rattle.review_ops.specs.Draft.{deed_of};
ghost use Rattle.review_ops.specs.Operation.{Operation};
ghost use Rattle.op_text.specs.Field.{key_of};
ghost use Rattle.op_text.specs.Shape.{HasShape, NamesKind, number_at, integer_at, text_at};
ghost use Rattle.op_text.specs.Spelling.{HoldsDeed, HoldsStamp, SpellsBody, SpellsOperation, SpellsParts};
ghost use Rattle.op_text.specs.Spelling.{IsRefusalOf, kind_of};

use super::canonical::{canonical, drafts_fit};
use super::fault::OpTextFault;
use super::field::{Field, Form, Kind};
use super::shape::{found, object_of, shaped};
use review_ops::{Body, Draft, Op, Stamp};
use serde_json::{Map, Value};
use std::alloc::Global;

/// Reads the text of a body, which needn't be good: `Body::checked` is asked later. What the text spells is read,
/// unless memory runs out. Refusals: 1 `NotJson`, the bytes aren't UTF-8 or aren't the text of one JSON object; 2
/// `BadShape`, the key `op` names no kind, or else the first key in byte order that is missing, not expected or not
/// accepted; 4 `NoMemory`. It costs O(n log n) for n bytes, and O(n) where the text is as `write_body` writes it.
pub fn read_body(alloc: Global, bytes: &[u8]) -> Result<Draft, OpTextFault>
    ensures spelled { IfOk result (λ draft. SpellsBody bytes.now (deed_of draft)) }
    ensures refused { IfErr result (IsRefusalOf Form.Body bytes.now) }

    // What is spelled is read.
    ensures only { (deed : Deed) → SpellsBody bytes.now deed
        → MatchResult result (λ draft. deed_of draft ≡ deed) (λ fault. fault ≡ OpTextFault.NoMemory) }
{
    spelled_body(alloc, bytes)
}

/// Reads the text of an operation. The label of a vote is kept in lower case. What the text spells is read, unless
/// memory runs out. Refusals: 1 `NotJson` and 2 `BadShape` as those of `read_body`; 3 `BadBody`, the body that the text
/// spells isn't good, with the cause that `Body::checked` answers; 4 `NoMemory`. It costs O(n log n) for n bytes, and
/// O(n) where the text is as `write_op` writes it.
pub fn read_op(alloc: Global, bytes: &[u8]) -> Result<Op, OpTextFault>
    ensures spelled { IfOk result (SpellsOperation bytes.now) }
    ensures refused { IfErr result (IsRefusalOf Form.Operation bytes.now) }

    // What is spelled is read.
    ensures only { (op : Operation) → SpellsOperation bytes.now op
        → MatchResult result (λ read. read ≡ op) (λ fault. fault ≡ OpTextFault.NoMemory) }
{
    spelled_operation(alloc, bytes)
}

/// The draft that the text of a body spells.
fn spelled_body(alloc: Global, bytes: &[u8]) -> Result<Draft, OpTextFault>
    ensures spelled { IfOk result (λ draft. SpellsBody bytes.now (deed_of draft)) }
    ensures refused { IfErr result (IsRefusalOf Form.Body bytes.now) }
{
    if let Some((None, draft)) = canonical(alloc, bytes) {
        drafts_fit(&draft);
        return Ok(draft);
    }
    let members = object_of(alloc, bytes)?;
    let kind = shaped(alloc, &members, Form::Body)?;
    Ok(draft_of(members, kind))
}

/// The operation that a text spells.
fn spelled_operation(alloc: Global, bytes: &[u8]) -> Result<Op, OpTextFault>
    ensures spelled { IfOk result (SpellsOperation bytes.now) }
    ensures refused { IfErr result (IsRefusalOf Form.Operation bytes.now) }
{
    let (stamp, draft) = spelled_parts(alloc, bytes)?;
    let body = Body::checked(draft).map_err(OpTextFault::BadBody)?;
    Ok(Op::new(stamp, body))
}

/// The stamp and the draft that the text of an operation spells.
fn spelled_parts(alloc: Global, bytes: &[u8]) -> Result<(Stamp, Draft), OpTextFault>
    ensures spelled { IfOk result (λ (stamp, draft). SpellsParts bytes.now stamp (deed_of draft)) }
    ensures refused { IfErr result (IsRefusalOf Form.Operation bytes.now) }
{
    if let Some((Some(stamp), draft)) = canonical(alloc, bytes) {
        prove!(stamp.seq() >= 1);
        drafts_fit(&draft);
        return Ok((stamp, draft));
    }
    let members = object_of(alloc, bytes)?;
    let kind = shaped(alloc, &members, Form::Operation)?;
    let stamp = stamp_of(&members);
    Ok((stamp, draft_of(members, kind)))
}

/// The stamp in the members of an operation.
fn stamp_of(members: &Map<String, Value>) -> Stamp
    requires { (kind : _)
        × HasShape Form.Operation kind (members_view members.now.entries) }
    ensures { HoldsStamp (members_view members.now.entries) result }
{
    let time = number64(members, Field::Time);
    let site = number16(members, Field::Site);
    let start = number32(members, Field::Start);
    let seq = number64(members, Field::Seq);
    Stamp::new(time, site, start, seq).unwrap()
}

/// The body that members of its shape spell. The texts are taken, not copied.
pub fn draft_of(members: Map<String, Value>, kind: Kind) -> Draft
    requires named { NamesKind (members_view members.entries) kind }
    requires shape { (form : _) × HasShape form kind (members_view members.entries) }
    ensures deed { HoldsDeed (members_view members.entries) (deed_of result) }
    ensures kind { kind_of (deed_of result) ≡ kind }
{
    match kind {
        Kind::PatchSet => patch_set_of(members),
        Kind::Vote => vote_of(members),
        Kind::Withdraw => withdraw_of(members),
        Kind::Abandon => Draft::Abandon {
            change: number32(&members, Field::Change),
        },
        Kind::Restore => Draft::Restore {
            change: number32(&members, Field::Change),
        },
        Kind::Merged => Draft::Merged {
            change: number32(&members, Field::Change),
        },
    }
}

/// The draft of a patch set.
fn patch_set_of(mut members: Map<String, Value>) -> Draft
    requires named { NamesKind (members_view members.entries) Kind.PatchSet }
    requires shape { (form : _) × HasShape form Kind.PatchSet (members_view members.entries) }
    ensures deed { HoldsDeed (members_view members.entries) (deed_of result) }
    ensures kind { kind_of (deed_of result) ≡ Kind.PatchSet }
{
    let change = number32(&members, Field::Change);
    let set = number32(&members, Field::Set);
    let parent = optional32(&members, Field::Parent);
    let message = take_text(&mut members, Field::Message);
    Draft::PatchSet {
        change,
        set,
        message,
        parent,
    }
}

/// The draft of a vote.
fn vote_of(mut members: Map<String, Value>) -> Draft
    requires named { NamesKind (members_view members.entries) Kind.Vote }
    requires shape { (form : _) × HasShape form Kind.Vote (members_view members.entries) }
    ensures deed { HoldsDeed (members_view members.entries) (deed_of result) }
    ensures kind { kind_of (deed_of result) ≡ Kind.Vote }
{
    let change = number32(&members, Field::Change);
    let set = number32(&members, Field::Set);
    let value = vote_value(&members);
    let label = take_text(&mut members, Field::Label);
    let voter = take_text(&mut members, Field::Voter);
    Draft::Vote {
        change,
        set,
        label,
        voter,
        value,
    }
}

/// The draft of a withdrawal.
fn withdraw_of(mut members: Map<String, Value>) -> Draft
    requires named { NamesKind (members_view members.entries) Kind.Withdraw }
    requires shape { (form : _) × HasShape form Kind.Withdraw (members_view members.entries) }
    ensures deed { HoldsDeed (members_view members.entries) (deed_of result) }
    ensures kind { kind_of (deed_of result) ≡ Kind.Withdraw }
{
    let change = number32(&members, Field::Change);
    let set = number32(&members, Field::Set);
    let label = take_text(&mut members, Field::Label);
    let voter = take_text(&mut members, Field::Voter);
    Draft::Withdraw {
        change,
        set,
        label,
        voter,
    }
}

/// The whole number under a key.
pub fn number(members: &Map<String, Value>, field: Field) -> Option<u64>
    ensures { result ≡ number_at field (members_view members.now.entries) }
{
    found(members, field.key()).and_then(Value::as_u64)
}

/// The number under a key, where it is there.
fn number64(members: &Map<String, Value>, field: Field) -> u64
    requires { IsSome (number_at field (members_view members.now.entries)) }
    ensures { number_at field (members_view members.now.entries) ≡ Some result }
{
    number(members, field).unwrap()
}

/// The number under a key, where it fits 16 bits.
fn number16(members: &Map<String, Value>, field: Field) -> u16
    requires { IsSomeAnd (number_at field (members_view members.now.entries)) (λ n. n < 2 ^ 16) }
    ensures { number_at field (members_view members.now.entries) ≡ Some result }
{
    number(members, field).unwrap() as u16
}

/// The number under a key, where it fits 32 bits.
pub fn number32(members: &Map<String, Value>, field: Field) -> u32
    requires { IsSomeAnd (number_at field (members_view members.now.entries)) (λ n. n < 2 ^ 32) }
    ensures { number_at field (members_view members.now.entries) ≡ Some result }
{
    number(members, field).unwrap() as u32
}

/// The number under a key, if it is there.
fn optional32(members: &Map<String, Value>, field: Field) -> Option<u32>
    requires { IfSome (number_at field (members_view members.now.entries)) (λ n. n < 2 ^ 32) }
    ensures { result ≡ number_at field (members_view members.now.entries) }
{
    match number(members, field) {
        None => None,
        Some(number) => Some(number as u32),
    }
}

/// The value of a vote.
fn vote_value(members: &Map<String, Value>) -> i8
    requires { IsSomeAnd
        (integer_at Field.Value (members_view members.now.entries)) (FitsSigned w8) }
    ensures { integer_at Field.Value (members_view members.now.entries) ≡ Some result }
{
    let value = found(members, Field::Value.key()).and_then(Value::as_i64);
    value.unwrap() as i8
}

/// Takes the text under a key out of the members.
fn take_text(members: &mut Map<String, Value>, field: Field) -> String
    requires { IsSome (text_at field (members_view members.old.entries)) }
    ensures text { text_at field (members_view members.old.entries) ≡ Some (string_bytes result) }
    ensures others { (key : List ℕ) → key ≢ key_of field
        → get_member key (members_view members.new.entries)
        ≡ get_member key (members_view members.old.entries) }
{
    let value = members.remove(field.key()).unwrap();
    into_text(value).unwrap()
}

/// The text that a value is.
fn into_text(value: Value) -> Option<String>
    ensures { option_map string_bytes result ≡ as_str (view value) }
{
    match value {
        Value::String(text) => Some(text),
        _other => None,
    }
}
