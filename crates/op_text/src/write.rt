//! Writes the texts of bodies and operations.

ghost use Rattle.std.specs.Prelude.{◌≡◌, ◌<◌, ◌++◌, IfOk, OnOk, OnErr, decimal, option_map, string_bytes};
ghost use Rattle.std.specs.Char.{digit_char};
ghost use Rattle.std.specs.Option.{option_copied};
ghost use Rattle.json.specs.Print.{escape, escape_byte, escape_letter, quoted};
ghost use Rattle.serde_json.specs.Data.{string, number};
ghost use Rattle.serde_json.specs.Find.{of_integer};
ghost use Rattle.review_ops.specs.Draft.{deed_of};
ghost use Rattle.op_text.specs.Canonical.{Extends, member_text, written_text};
ghost use Rattle.op_text.specs.Field.{key_of};
ghost use Rattle.op_text.specs.Spelling.{SpellsBody, SpellsOperation};
ghost use Rattle.op_text.specs.Text.{data_of, body_text, operation_text, whole};

use super::field::{Field, Kind};
use super::parts::plain_len;
use lattice_core::NoMemory;
use review_ops::{Body, Draft, Op, Stamp};
use std::alloc::{AllocError, Global};

/// What a text takes beside its message, mostly.
const ROOM: usize = 192;

/// The fields behind the change, in byte order of their keys.
const LATER_FIELDS: [Field; 11] = [
    Field::Label,
    Field::Message,
    Field::Op,
    Field::Parent,
    Field::Seq,
    Field::Set,
    Field::Site,
    Field::Start,
    Field::Time,
    Field::Value,
    Field::Voter,
];

/// The text of an operation: one line, which `read_op` reads back as the operation. It costs O(n) for n bytes of it.
pub fn write_op(alloc: Global, op: &Op) -> Result<String, NoMemory>
    ensures text { IfOk result (λ text. string_bytes text ≡ operation_text op.now) }
    ensures spells { IfOk result (λ text. SpellsOperation (string_bytes text) op.now) }
{
    let mut page = Vec::with_capacity(alloc, room_of(op.body().draft()))?;
    append_op(&mut page, op)?;
    Ok(String::from_utf8(page).unwrap())
}

/// Adds the text of an operation, as `write_op` gives it, to the end of a page. Where memory is refused the page is as
/// it was. It costs O(n) for n bytes of the text, beside what the page's growth costs.
pub fn append_op(page: &mut Vec<u8>, op: &Op) -> Result<(), NoMemory>
    ensures ok { OnOk result (page.new.items ≡ page.old.items ++ operation_text op.now) }
    ensures err { OnErr result (page.new.items ≡ page.old.items) }

    // What is added spells the operation.
    ensures spells { SpellsOperation (operation_text op.now) op.now }
{
    append_text(page, Some(op.stamp()), op.body().draft())
}

/// The text of a body, which `read_body` reads back as the body's draft. It costs O(n) for n bytes of it.
pub fn write_body(alloc: Global, body: &Body) -> Result<String, NoMemory>
    ensures text { IfOk result (λ text. string_bytes text ≡ body_text body.now) }
    ensures spells { IfOk result (λ text. SpellsBody (string_bytes text) body.now) }
{
    let mut page = Vec::with_capacity(alloc, room_of(body.draft()))?;
    append_body(&mut page, body)?;
    Ok(String::from_utf8(page).unwrap())
}

/// Adds the text of a body to the end of a page.
fn append_body(page: &mut Vec<u8>, body: &Body) -> Result<(), NoMemory>
    ensures ok { OnOk result (page.new.items ≡ page.old.items ++ body_text body.now) }
    ensures err { OnErr result (page.new.items ≡ page.old.items) }
    ensures spells { SpellsBody (body_text body.now) body.now }
{
    append_text(page, None, body.draft())
}

/// About how many bytes the text of a draft has.
fn room_of(draft: &Draft) -> usize {
    let message_len = draft.message().map_or(0, |message| message.len());
    ROOM.saturating_add(message_len)
}

/// Adds the text of a draft, with a stamp or without, to the end of a page.
fn append_text(page: &mut Vec<u8>, stamp: Option<Stamp>, draft: &Draft) -> Result<(), NoMemory>
    ensures ok { OnOk result (page.new.items ≡ page.old.items ++ written_text stamp (deed_of draft.now)) }
    ensures err { OnErr result (page.new.items ≡ page.old.items) }
{
    let len = page.as_slice().len();
    match put_object(page, &stamp, draft) {
        Ok(()) => Ok(()),
        Err(_refused) => {
            page.truncate(len);
            Err(NoMemory)
        }
    }
}

/// Writes the object of a draft, with a stamp or without.
fn put_object(page: &mut Vec<u8>, stamp: &Option<Stamp>, draft: &Draft) -> Result<(), AllocError>
    ensures ok { OnOk result (page.new.items ≡ page.old.items ++ written_text stamp.now (deed_of draft.now)) }
    ensures kept { Extends page.old.items page.new.items }
{
    put(page, b"{\"change\":")?;
    put_decimal(page, u64::from(draft.change()))?;
    for field in LATER_FIELDS {
        put_field(page, field, stamp, draft)?;
    }
    put(page, b"}")
}

/// Writes a field, if there is a value for it.
fn put_field(
    page: &mut Vec<u8>,
    field: Field,
    stamp: &Option<Stamp>,
    draft: &Draft,
) -> Result<(), AllocError>
    ensures ok { OnOk result (page.new.items
        ≡ page.old.items ++ member_text (key_of field) (data_of stamp.now (deed_of draft.now) field)) }
    ensures kept { Extends page.old.items page.new.items }
{
    match field {
        Field::Change => put_number(page, field, Some(u64::from(draft.change()))),
        Field::Label => put_text(page, field, draft.label()),
        Field::Message => put_text(page, field, draft.message()),
        Field::Op => put_text(page, field, Some(Kind::of(draft).name())),
        Field::Parent => put_number(page, field, draft.parent().map(u64::from)),
        Field::Seq => put_number(page, field, stamp.map(|stamp| stamp.seq())),
        Field::Set => put_number(page, field, draft.set().map(u64::from)),
        Field::Site => put_number(page, field, stamp.map(|stamp| u64::from(stamp.site()))),
        Field::Start => put_number(page, field, stamp.map(|stamp| u64::from(stamp.start()))),
        Field::Time => put_number(page, field, stamp.map(|stamp| stamp.time())),
        Field::Value => put_integer(page, field, draft.value()),
        Field::Voter => put_text(page, field, draft.voter()),
    }
}

/// Writes a number under a field's key, if there is one.
fn put_number(page: &mut Vec<u8>, field: Field, value: Option<u64>) -> Result<(), AllocError>
    ensures ok { OnOk result (page.new.items
        ≡ page.old.items ++ member_text (key_of field) (option_map whole value)) }
    ensures kept { Extends page.old.items page.new.items }
{
    let Some(value) = value else {
        return Ok(());
    };
    put(page, field.literal())?;
    put_decimal(page, value)
}

/// Writes a small integer under a field's key, if there is one.
fn put_integer(page: &mut Vec<u8>, field: Field, value: Option<i8>) -> Result<(), AllocError>
    ensures ok { OnOk result (page.new.items
        ≡ page.old.items ++ member_text (key_of field) (option_map (λ z. number (of_integer z)) value)) }
    ensures kept { Extends page.old.items page.new.items }
{
    let Some(value) = value else {
        return Ok(());
    };
    put(page, field.literal())?;
    let mut buffer = itoa::Buffer::new();
    put(page, buffer.format(value).as_bytes())
}

/// Writes a text under a field's key, if there is one.
fn put_text(page: &mut Vec<u8>, field: Field, value: Option<&str>) -> Result<(), AllocError>
    ensures ok { OnOk result (page.new.items
        ≡ page.old.items ++ member_text (key_of field) (option_map string (option_copied value.entry))) }
    ensures kept { Extends page.old.items page.new.items }
{
    let Some(value) = value else {
        return Ok(());
    };
    put(page, field.literal())?;
    put_quoted(page, value)
}

/// Writes a text in quotes.
fn put_quoted(page: &mut Vec<u8>, text: &str) -> Result<(), AllocError>
    ensures ok { OnOk result (page.new.items ≡ page.old.items ++ quoted text.now) }
    ensures kept { Extends page.old.items page.new.items }
{
    put(page, b"\"")?;
    put_escaped(page, text.as_bytes())?;
    put(page, b"\"")
}

/// Writes a number in decimal digits.
fn put_decimal(page: &mut Vec<u8>, number: u64) -> Result<(), AllocError>
    ensures ok { OnOk result (page.new.items ≡ page.old.items ++ decimal number) }
    ensures kept { Extends page.old.items page.new.items }
{
    let mut buffer = itoa::Buffer::new();
    put(page, buffer.format(number).as_bytes())
}

/// Writes a text as it is in quotes.
fn put_escaped(page: &mut Vec<u8>, text: &[u8]) -> Result<(), AllocError>
    ensures ok { OnOk result (page.new.items ≡ page.old.items ++ escape text.now) }
    ensures kept { Extends page.old.items page.new.items }
{
    let mut left = text;
    loop {
        let (plain, rest) = left.split_at(plain_len(left));
        put(page, plain)?;
        let Some((byte, rest)) = rest.split_first() else {
            return Ok(());
        };
        put_escape(page, *byte)?;
        left = rest;
    }
}

/// Writes a byte as it is in quotes.
fn put_escape(page: &mut Vec<u8>, byte: u8) -> Result<(), AllocError>
    ensures ok { OnOk result (page.new.items ≡ page.old.items ++ escape_byte byte) }
    ensures kept { Extends page.old.items page.new.items }
{
    let letter = letter_of(byte);
    if letter > 0 {
        return put(page, &[b'\\', letter]);
    }
    if byte < b' ' {
        return put(
            page,
            &[b'\\', b'u', b'0', b'0', hex(byte / 16), hex(byte % 16)],
        );
    }
    put(page, &[byte])
}

/// The letter of a byte's short escape, or 0 where it has none.
fn letter_of(byte: u8) -> u8
    ensures { result ≡ escape_letter byte }
{
    match byte {
        b'"' | b'\\' => byte,
        8 => b'b',
        12 => b'f',
        b'\n' => b'n',
        b'\r' => b'r',
        b'\t' => b't',
        _ => 0,
    }
}

/// The digit of a number below 16.
fn hex(digit: u8) -> u8
    requires { digit < 16 }
    ensures { result ≡ digit_char digit }
{
    if digit < 10 {
        b'0' + digit
    } else {
        b'a' - 10 + digit
    }
}

/// Adds bytes to the end of a page.
fn put(page: &mut Vec<u8>, bytes: &[u8]) -> Result<(), AllocError>
    ensures ok { OnOk result (page.new.items ≡ page.old.items ++ bytes.now) }
    ensures kept { Extends page.old.items page.new.items }
{
    page.extend_from_slice(bytes)
}
