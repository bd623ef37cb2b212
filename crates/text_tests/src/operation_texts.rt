//! Texts of operations and fronts, worked out by hand.

use super::asserts::assert_found;
use super::found::{MEMORY, assert_answer, assert_bytes, assert_text};
use op_text::{
    OpTextFault, append_op, read_body, read_front, read_op, write_body, write_front, write_op,
};
use review_ops::{Body, Draft};
use std::alloc::Global;
use std::process::Abort;

/// A text and a word behind it.
fn with_word(mut text: String, word: &str) -> Option<String> {
    text.push(' ').ok()?;
    text.push_str(word).ok()?;
    Some(text)
}

/// The number and the name of a fault.
fn named(alloc: Global, fault: &OpTextFault) -> Option<String> {
    let number = format!(in alloc; "{}", fault.number()).ok()?;
    with_word(number, fault.name())
}

/// A fault as reports print it.
fn said(alloc: Global, fault: &OpTextFault) -> Option<String> {
    let text = named(alloc, fault)?;
    match fault {
        OpTextFault::BadShape(key) => with_word(text, key.as_str()),
        OpTextFault::BadBody(cause) => with_word(text, cause.name()),
        _ => Some(text),
    }
}

/// What reading an operation gives: its text, or the fault.
fn echoed(alloc: Global, text: &[u8]) -> Option<String> {
    match read_op(alloc, text) {
        Ok(op) => write_op(alloc, &op).ok(),
        Err(fault) => said(alloc, &fault),
    }
}

/// What reading an operation behind a blank gives.
fn echoed_spaced(alloc: Global, text: &str) -> Option<String> {
    let spaced = behind_blank(alloc, text.as_bytes())?;
    echoed(alloc, spaced.as_slice())
}

/// The text of a body, where it is good.
fn written_body(alloc: Global, draft: Draft) -> Option<String> {
    let body = Body::checked(draft).ok()?;
    write_body(alloc, &body).ok()
}

/// What reading a body and checking it gives: its text, or the fault.
fn echoed_body(alloc: Global, text: &[u8]) -> Option<String> {
    match read_body(alloc, text) {
        Ok(draft) => written_body(alloc, draft),
        Err(fault) => said(alloc, &fault),
    }
}

/// Reading an operation from this text gives this answer.
fn assert_echo(rt: &impl Abort, alloc: Global, text: &str, wanted: &str) {
    assert_answer(rt, text, echoed(alloc, text.as_bytes()), wanted);
}

/// Reading an operation from each of these texts gives the answer beside it.
fn assert_echoes(rt: &impl Abort, alloc: Global, rows: &[(&str, &str)]) {
    for (text, wanted) in rows {
        assert_echo(rt, alloc, text, wanted);
    }
}

/// Each of these texts is read and written again to the byte; with one blank more it isn't as it was written.
fn assert_written(rt: &impl Abort, alloc: Global, texts: &[&str]) {
    for text in texts {
        assert_echo(rt, alloc, text, text);
        assert_answer(rt, text, echoed_spaced(alloc, text), text);
    }
}

/// Operations of each kind.
const WRITTEN: &[&str] = &[
    r#"{"change":5,"op":"merged","seq":1,"site":1,"start":1,"time":1}"#,
    r#"{"change":5,"op":"abandon","seq":2,"site":65535,"start":4294967295,"time":18446744073709551615}"#,
    r#"{"change":4294967295,"op":"restore","seq":18446744073709551615,"site":0,"start":0,"time":0}"#,
    r#"{"change":101,"label":"verified","op":"vote","seq":2,"set":1,"site":1,"start":1,"time":2,"value":1,"voter":"zuul"}"#,
    r#"{"change":101,"label":"code-review","op":"vote","seq":2,"set":1,"site":1,"start":1,"time":2,"value":-128,"voter":"~!"}"#,
    r#"{"change":101,"label":"v","op":"withdraw","seq":2,"set":1,"site":1,"start":1,"time":2,"voter":"zuul"}"#,
    r#"{"change":1,"message":"Add x\n\"\u0001ü","op":"patchset","parent":7,"seq":3,"set":4294967295,"site":1,"start":1,"time":2}"#,
    r#"{"change":1,"message":"","op":"patchset","seq":3,"set":1,"site":1,"start":1,"time":2}"#,
    r#"{"change":1,"message":"\u0000\u001f\b\t\n\f\r\"\\/ü€😀","op":"patchset","seq":3,"set":1,"site":1,"start":1,"time":2}"#,
];

// Each kind is read and written again to the byte.
#[test]
fn written_as_read(rt: HostRuntime) {
    assert_written(&rt, rt.alloc(), WRITTEN);
}

/// Adds the text of the operation that a text spells.
fn add_op(alloc: Global, page: &mut Vec<u8>, text: &str) -> Option<()> {
    let op = read_op(alloc, text.as_bytes()).ok()?;
    append_op(page, &op).ok()
}

/// A page with the texts of operations, one behind the other.
fn page_of_operations(alloc: Global) -> Option<Vec<u8>> {
    let mut page = Vec::from_slice(alloc, b"> ").ok()?;
    for text in WRITTEN {
        add_op(alloc, &mut page, text)?;
    }
    Some(page)
}

/// The texts of operations, one behind the other.
fn page_of_texts(alloc: Global) -> Option<Vec<u8>> {
    let mut page = Vec::from_slice(alloc, b"> ").ok()?;
    for text in WRITTEN {
        page.extend_from_slice(text.as_bytes()).ok()?;
    }
    Some(page)
}

// The texts of operations are added to a page, one behind the other.
#[test]
fn texts_on_one_page(rt: HostRuntime) {
    let wanted = page_of_texts(rt.alloc()).expect(&rt, MEMORY);
    assert_bytes(&rt, page_of_operations(rt.alloc()), wanted.as_slice());
}

/// A vote.
const VOTE: &str =
    r#"{"change":5,"label":"code-review","op":"vote","seq":1,"set":2,"site":1,"start":1,"time":1,"value":0,"voter":"a"}"#;

/// Spellings of the vote.
const SPELLINGS: &[(&str, &str)] = &[
    (
        r#" {"voter":"a","value":0,"time":1,"start":1,"site":1,"set":2,"seq":1,"op":"vote","label":"Code-Review","change":5} "#,
        VOTE,
    ),
    (
        r#"{"change":9,"change":5,"label":"CODE-REVIEW","op":"vote","seq":1,"set":2,"site":1,"start":1,"time":1,"value":0,"voter":"a"}"#,
        VOTE,
    ),
    (
        r#"{"ch\u0061nge":5,"label":"code-review","op":"v\u006fte","seq":1,"set":2,"site":1,"start":1,"time":1,"value":0,"voter":"a"}"#,
        VOTE,
    ),
];

// A key written twice, escapes in keys, blanks between tokens, keys in any order and labels in any case are read.
#[test]
fn spellings(rt: HostRuntime) {
    assert_echoes(&rt, rt.alloc(), SPELLINGS);
}

/// Texts, each with its first refusal.
const REFUSALS: &[(&str, &str)] = &[
    ("", "1 NotJson"),
    ("[]", "1 NotJson"),
    (r#"{"change":5,"op":"mer"#, "1 NotJson"),
    (
        r#"{"change":1e999,"op":"merged","seq":1,"site":1,"start":1,"time":1}"#,
        "1 NotJson",
    ),
    ("{}", "2 BadShape op"),
    (
        r#"{"change":5,"op":"merge","seq":1,"site":1,"start":1,"time":1}"#,
        "2 BadShape op",
    ),
    (r#"{"aaa":5,"op":5}"#, "2 BadShape op"),
    (
        r#"{"change":5,"op":"merged","seq":0,"site":1,"start":1,"time":1}"#,
        "2 BadShape seq",
    ),
    (
        r#"{"change":4294967296,"op":"merged","seq":1,"site":1,"start":1,"time":1}"#,
        "2 BadShape change",
    ),
    (
        r#"{"change":5.0,"op":"merged","seq":1,"site":1,"start":1,"time":1}"#,
        "2 BadShape change",
    ),
    (
        r#"{"change":1e2,"op":"merged","seq":1,"site":1,"start":1,"time":1}"#,
        "2 BadShape change",
    ),
    (
        r#"{"change":-0,"op":"merged","seq":1,"site":1,"start":1,"time":1}"#,
        "2 BadShape change",
    ),
    (
        r#"{"change":5,"op":"merged","seq":1,"site":65536,"start":1,"time":1}"#,
        "2 BadShape site",
    ),
    (
        r#"{"change":5,"op":"merged","seq":1,"site":1,"start":1}"#,
        "2 BadShape time",
    ),
    (
        r#"{"change":5,"op":"merged","seq":1,"site":1,"start":1,"time":18446744073709551616}"#,
        "2 BadShape time",
    ),
];

#[test]
fn refusals(rt: HostRuntime) {
    assert_echoes(&rt, rt.alloc(), REFUSALS);
}

/// Texts with several faults, each with the first one.
const FIRST_FAULTS: &[(&str, &str)] = &[
    (
        r#"{"change":5,"op":"merged","seq":0,"site":1,"start":1,"t":1,"time":1}"#,
        "2 BadShape seq",
    ),
    (
        r#"{"change":5,"op":"merged","s":1,"seq":0,"site":1,"start":1,"time":1}"#,
        "2 BadShape s",
    ),
    (r#"{"change":0,"op":"merged","set":1}"#, "2 BadShape seq"),
    (
        r#"{"change":0,"op":"merged","seq":1,"set":1,"site":1,"start":1,"time":1}"#,
        "2 BadShape set",
    ),
    (
        r#"{"change":0,"op":"merged","seq":1,"site":1,"start":1,"time":1}"#,
        "3 BadBody BadChange",
    ),
    (
        r#"{"change":1,"message":"m","op":"patchset","parent":4294967296,"seq":1,"set":1,"site":1,"start":1,"time":1}"#,
        "2 BadShape parent",
    ),
    (
        r#"{"change":1,"message":"m","op":"patchset","parent":0,"seq":1,"set":1,"site":1,"start":1,"time":1}"#,
        "3 BadBody BadParent",
    ),
    (
        r#"{"change":1,"message":"m","op":"patchset","parent":0,"seq":1,"set":0,"site":1,"start":1,"time":1}"#,
        "3 BadBody BadSet",
    ),
    (
        r#"{"change":1,"label":"Code_Review","op":"withdraw","seq":1,"set":1,"site":1,"start":1,"time":1,"voter":""}"#,
        "3 BadBody BadLabel",
    ),
    (
        r#"{"change":1,"label":"v","op":"vote","seq":1,"set":1,"site":1,"start":1,"time":1,"value":128,"voter":"a"}"#,
        "2 BadShape value",
    ),
];

// The least of several bad keys is named, and a bad shape before a bad body.
#[test]
fn first_faults(rt: HostRuntime) {
    assert_echoes(&rt, rt.alloc(), FIRST_FAULTS);
}

/// Texts that are nearly as they are written, each with what it spells or its first refusal.
const NEAR_TEXTS: &[(&str, &str)] = &[
    (
        r#"{"change":05,"op":"merged","seq":1,"site":1,"start":1,"time":1}"#,
        "1 NotJson",
    ),
    (
        r#"{"change":5,"op":"merged","seq":1,"site":00,"start":1,"time":1}"#,
        "1 NotJson",
    ),
    (
        r#"{"change":5,"op":"merged","seq":1,"site":1,"start":1,"time":}"#,
        "1 NotJson",
    ),
    (
        r#"{"change":5,"op":"merged","seq":1,"site":1,"start":1,"time":1"#,
        "1 NotJson",
    ),
    (
        r#"{"change":5,"op":"merged","seq":1,"site":1,"start":1,"time":1}}"#,
        "1 NotJson",
    ),
    (
        r#"{"change":5,"op":"merged","seq":1,"site":1,"start":1,"time":1} "#,
        r#"{"change":5,"op":"merged","seq":1,"site":1,"start":1,"time":1}"#,
    ),
    (
        r#"{"change":5,"op":"merged","seq":1,"site":1,"start":1,"time":1,"value":1}"#,
        "2 BadShape value",
    ),
    (
        r#"{"change":5,"op":"merged","seq":18446744073709551616,"site":1,"start":1,"time":1}"#,
        "2 BadShape seq",
    ),
    (r#"{"change":5,"op":"merged"}"#, "2 BadShape seq"),
    (
        r#"{"change":1,"label":"V","op":"vote","seq":1,"set":1,"site":1,"start":1,"time":1,"value":-128,"voter":"a"}"#,
        r#"{"change":1,"label":"v","op":"vote","seq":1,"set":1,"site":1,"start":1,"time":1,"value":-128,"voter":"a"}"#,
    ),
    (
        r#"{"change":1,"label":"v","op":"vote","seq":1,"set":1,"site":1,"start":1,"time":1,"value":127,"voter":"\u0061"}"#,
        r#"{"change":1,"label":"v","op":"vote","seq":1,"set":1,"site":1,"start":1,"time":1,"value":127,"voter":"a"}"#,
    ),
    (
        r#"{"change":1,"label":"v","op":"vote","seq":1,"set":1,"site":1,"start":1,"time":1,"value":-129,"voter":"a"}"#,
        "2 BadShape value",
    ),
    (
        r#"{"change":1,"label":"v","op":"vote","seq":1,"set":1,"site":1,"start":1,"time":1,"value":-0,"voter":"a"}"#,
        "2 BadShape value",
    ),
    (
        r#"{"change":1,"label":"v","op":"vote","seq":1,"set":1,"site":1,"start":1,"time":1,"value":--1,"voter":"a"}"#,
        "1 NotJson",
    ),
    (
        r#"{"change":1,"label":"v\"","op":"withdraw","seq":1,"set":1,"site":1,"start":1,"time":1,"voter":"a"}"#,
        "3 BadBody BadLabel",
    ),
    (
        r#"{"change":1,"message":"a\u000ab\/c\u001b","op":"patchset","seq":3,"set":1,"site":1,"start":1,"time":2}"#,
        r#"{"change":1,"message":"a\nb/c\u001b","op":"patchset","seq":3,"set":1,"site":1,"start":1,"time":2}"#,
    ),
    (
        "{\"change\":1,\"message\":\"a\nb\",\"op\":\"patchset\",\"seq\":3,\"set\":1,\"site\":1,\"start\":1,\"time\":2}",
        "1 NotJson",
    ),
    (
        r#"{"change":1,"message":"\x","op":"patchset","seq":3,"set":1,"site":1,"start":1,"time":2}"#,
        "1 NotJson",
    ),
    (
        r#"{"change":1,"message":"\b\f\r\t\\","op":"patchset","parent":2,"seq":3,"set":1,"site":1,"start":1,"time":2}"#,
        r#"{"change":1,"message":"\b\f\r\t\\","op":"patchset","parent":2,"seq":3,"set":1,"site":1,"start":1,"time":2}"#,
    ),
    (
        r#"{"change":1,"message":"m","op":"patchset","parent":2,"parent":3,"seq":3,"set":1,"site":1,"start":1,"time":2}"#,
        r#"{"change":1,"message":"m","op":"patchset","parent":3,"seq":3,"set":1,"site":1,"start":1,"time":2}"#,
    ),
    (
        r#"{"change":1,"message":"m","op":"patchset","parent":-1,"seq":3,"set":1,"site":1,"start":1,"time":2}"#,
        "2 BadShape parent",
    ),
];

// Texts that are nearly as they are written are read as JSON has it.
#[test]
fn near_texts(rt: HostRuntime) {
    assert_echoes(&rt, rt.alloc(), NEAR_TEXTS);
}

/// The bytes with another byte at a place.
fn with_byte(alloc: Global, bytes: &[u8], at: usize, byte: u8) -> Option<Vec<u8>> {
    let mut changed = Vec::new(alloc);
    for (i, kept) in bytes.iter().enumerate() {
        changed.push(if i == at { byte } else { *kept }).ok()?;
    }
    Some(changed)
}

/// The bytes behind a blank.
fn behind_blank(alloc: Global, bytes: &[u8]) -> Option<Vec<u8>> {
    let mut spaced = Vec::from_slice(alloc, b" ").ok()?;
    spaced.extend_from_slice(bytes).ok()?;
    Some(spaced)
}

/// Whether two faults are printed alike.
fn are_said_alike(alloc: Global, one: &OpTextFault, other: &OpTextFault) -> Option<bool> {
    let one = said(alloc, one)?;
    let other = said(alloc, other)?;
    Some(one == other)
}

/// Whether two texts give the same, or the same refusal.
fn are_alike<T: PartialEq + Drop>(
    alloc: Global,
    one: Result<T, OpTextFault>,
    other: Result<T, OpTextFault>,
) -> Option<bool> {
    match (one, other) {
        (Ok(one), Ok(other)) => Some(one == other),
        (Err(one), Err(other)) => are_said_alike(alloc, &one, &other),
        _ => Some(false),
    }
}

/// Whether two texts give the same operation, or the same refusal.
fn are_same_operations(alloc: Global, one: &[u8], other: &[u8]) -> Option<bool> {
    are_alike(alloc, read_op(alloc, one), read_op(alloc, other))
}

/// Whether two texts give the same draft, or the same refusal.
fn are_same_drafts(alloc: Global, one: &[u8], other: &[u8]) -> Option<bool> {
    are_alike(alloc, read_body(alloc, one), read_body(alloc, other))
}

/// Bytes that stand for something in a text, or for nothing.
const OTHER_BYTES: &[u8] = b"0-\"\\} \n\xc3";

/// Whether an operation's text with another byte at a place gives the same with a blank before it.
fn is_operation_blind(alloc: Global, text: &str, at: usize, byte: u8) -> Option<bool> {
    let changed = with_byte(alloc, text.as_bytes(), at, byte)?;
    let spaced = behind_blank(alloc, changed.as_slice())?;
    are_same_operations(alloc, changed.as_slice(), spaced.as_slice())
}

/// Whether a body's text with another byte at a place gives the same with a blank before it.
fn is_draft_blind(alloc: Global, text: &str, at: usize, byte: u8) -> Option<bool> {
    let changed = with_byte(alloc, text.as_bytes(), at, byte)?;
    let spaced = behind_blank(alloc, changed.as_slice())?;
    are_same_drafts(alloc, changed.as_slice(), spaced.as_slice())
}

/// The first of the other bytes that doesn't give the same with a blank before an operation's text, at this place.
fn operation_teller(alloc: Global, text: &str, at: usize) -> Option<u8> {
    for byte in OTHER_BYTES {
        if is_operation_blind(alloc, text, at, *byte) != Some(true) {
            return Some(*byte);
        }
    }
    None
}

/// The same of a body's text.
fn draft_teller(alloc: Global, text: &str, at: usize) -> Option<u8> {
    for byte in OTHER_BYTES {
        if is_draft_blind(alloc, text, at, *byte) != Some(true) {
            return Some(*byte);
        }
    }
    None
}

/// At a place of a text no byte tells what is read from what is read behind a blank.
fn assert_blind(rt: &impl Abort, text: &str, at: usize, teller: Option<u8>) {
    assert_found(rt, (text, at, teller), (text, at, None));
}

/// At each place of an operation's text other bytes give the same with a blank before the text.
fn assert_operations_blind(rt: &impl Abort, alloc: Global, text: &str) {
    for at in 0..text.len() {
        assert_blind(rt, text, at, operation_teller(alloc, text, at));
    }
}

/// At each place of a body's text other bytes give the same with a blank before the text.
fn assert_drafts_blind(rt: &impl Abort, alloc: Global, text: &str) {
    for at in 0..text.len() {
        assert_blind(rt, text, at, draft_teller(alloc, text, at));
    }
}

/// Operations as they are written, one of each form.
const SAMPLES: &[&str] = &[
    r#"{"change":10,"op":"merged","seq":1,"site":1,"start":1,"time":10}"#,
    r#"{"change":10,"label":"v","op":"vote","seq":2,"set":1,"site":1,"start":1,"time":2,"value":-12,"voter":"zu"}"#,
    r#"{"change":1,"message":"a\n\"ü","op":"patchset","parent":7,"seq":3,"set":42,"site":1,"start":1,"time":2}"#,
];

/// Bodies as they are written.
const WRITTEN_BODIES: &[&str] = &[
    r#"{"change":10,"op":"merged"}"#,
    r#"{"change":10,"label":"v","op":"vote","set":1,"value":-12,"voter":"zu"}"#,
    r#"{"change":10,"label":"v","op":"withdraw","set":1,"voter":"zu"}"#,
    r#"{"change":1,"message":"a\n\"ü","op":"patchset","parent":7,"set":4294967295}"#,
];

// A blank before a text, which only the JSON reader reads, changes nothing of what is read.
#[test]
fn a_blank_changes_nothing(rt: HostRuntime) {
    for text in SAMPLES {
        assert_operations_blind(&rt, rt.alloc(), text);
    }
}

#[test]
fn a_blank_before_a_body_changes_nothing(rt: HostRuntime) {
    for text in WRITTEN_BODIES {
        assert_drafts_blind(&rt, rt.alloc(), text);
    }
}

/// Reading a body from this text gives this answer.
fn assert_body(rt: &impl Abort, alloc: Global, text: &str, wanted: &str) {
    assert_answer(rt, text, echoed_body(alloc, text.as_bytes()), wanted);
}

/// Texts, each with the body that it spells or its first refusal.
const BODIES: &[(&str, &str)] = &[
    (
        r#"{"op":"merged","change":101}"#,
        r#"{"change":101,"op":"merged"}"#,
    ),
    (
        r#"{"change":1,"message":"m","op":"patchset","set":1}"#,
        r#"{"change":1,"message":"m","op":"patchset","set":1}"#,
    ),
    (
        r#"{"change":5,"op":"merged","seq":1,"site":1,"start":1,"time":1}"#,
        "2 BadShape seq",
    ),
    (
        r#"{"change":5,"message":"m","op":"merged"}"#,
        "2 BadShape message",
    ),
    (
        r#"{"change":1,"label":"Code-Review","op":"vote","set":1,"value":-1,"voter":"a"}"#,
        r#"{"change":1,"label":"code-review","op":"vote","set":1,"value":-1,"voter":"a"}"#,
    ),
    (
        r#"{"change":1,"label":"v","op":"withdraw","set":1,"voter":"a"}"#,
        r#"{"change":1,"label":"v","op":"withdraw","set":1,"voter":"a"}"#,
    ),
    (
        r#"{"change":1,"message":"m","op":"patchset","parent":7,"set":1}"#,
        r#"{"change":1,"message":"m","op":"patchset","parent":7,"set":1}"#,
    ),
    (
        r#"{"change":5,"op":"abandon"}"#,
        r#"{"change":5,"op":"abandon"}"#,
    ),
    (
        r#"{"change":5,"op":"restore"}"#,
        r#"{"change":5,"op":"restore"}"#,
    ),
    (r#"{"change":5,"op":"restored"}"#, "2 BadShape op"),
    (r#"{"change":-0,"op":"restore"}"#, "2 BadShape change"),
    ("7", "1 NotJson"),
];

// A body has no stamp.
#[test]
fn bodies(rt: HostRuntime) {
    for (text, wanted) in BODIES {
        assert_body(&rt, rt.alloc(), text, wanted);
    }
}

/// Whether a body that isn't good is read as it is.
fn is_bad_body_read(alloc: Global) -> bool {
    match read_body(alloc, br#"{"change":0,"op":"merged"}"#) {
        Ok(draft) => draft == Draft::Merged { change: 0 },
        Err(_) => false,
    }
}

// Reading a body doesn't ask whether it is good.
#[test]
fn a_body_that_is_not_good(rt: HostRuntime) {
    assert_found(&rt, is_bad_body_read(rt.alloc()), true);
}

/// Adds a letter so many times.
fn push_times(text: &mut String, letter: char, times: usize) -> Option<()> {
    for _ in 0..times {
        text.push(letter).ok()?;
    }
    Some(())
}

/// A text, a letter so many times, and another text.
fn filled(alloc: Global, first: &str, letter: char, times: usize, last: &str) -> Option<String> {
    let mut text = String::from_str(alloc, first).ok()?;
    push_times(&mut text, letter, times)?;
    text.push_str(last).ok()?;
    Some(text)
}

/// A patch set with a message of so many bytes.
fn with_message(alloc: Global, length: usize) -> Option<String> {
    let first = r#"{"change":1,"message":""#;
    let last = r#"","op":"patchset","seq":1,"set":1,"site":1,"start":1,"time":1}"#;
    filled(alloc, first, 'm', length, last)
}

/// A withdrawal by a voter of so many bytes.
fn with_voter(alloc: Global, length: usize) -> Option<String> {
    let first =
        r#"{"change":1,"label":"v","op":"withdraw","seq":1,"set":1,"site":1,"start":1,"time":1,"voter":""#;
    filled(alloc, first, 'v', length, "\"}")
}

/// What reading an operation from a text gives: `true` where it is written again to the byte, its other text, or the
/// fault.
fn answer_to(alloc: Global, text: Option<String>) -> Option<String> {
    let text = text?;
    let echo = echoed(alloc, text.as_bytes())?;
    if echo == text {
        return String::from_str(alloc, "true").ok();
    }
    Some(echo)
}

/// Reading a patch set with a message of so many bytes gives this answer.
fn assert_message(rt: &impl Abort, alloc: Global, length: usize, wanted: &str) {
    assert_text(rt, answer_to(alloc, with_message(alloc, length)), wanted);
}

/// Reading a withdrawal by a voter of so many bytes gives this answer.
fn assert_voter(rt: &impl Abort, alloc: Global, length: usize, wanted: &str) {
    assert_text(rt, answer_to(alloc, with_voter(alloc, length)), wanted);
}

/// A list in so many lists, as a value of a key.
fn nested(alloc: Global, depth: usize) -> Option<String> {
    let mut text = String::from_str(alloc, "{\"a\":").ok()?;
    push_times(&mut text, '[', depth)?;
    push_times(&mut text, ']', depth)?;
    text.push('}').ok()?;
    Some(text)
}

/// Reading lists of this depth gives this answer.
fn assert_depth(rt: &impl Abort, alloc: Global, depth: usize, wanted: &str) {
    assert_text(rt, answer_to(alloc, nested(alloc, depth)), wanted);
}

// The longest texts.
#[test]
fn limits(rt: HostRuntime) {
    assert_message(&rt, rt.alloc(), 65536, "true");
    assert_message(&rt, rt.alloc(), 65537, "3 BadBody LongMessage");
    assert_voter(&rt, rt.alloc(), 64, "true");
    assert_voter(&rt, rt.alloc(), 65, "3 BadBody BadVoter");
}

// The deepest nesting.
#[test]
fn the_deepest_nesting(rt: HostRuntime) {
    assert_depth(&rt, rt.alloc(), 126, "2 BadShape op");
    assert_depth(&rt, rt.alloc(), 127, "1 NotJson");
}

// Bytes that are no text.
#[test]
fn bytes_that_are_no_text(rt: HostRuntime) {
    assert_text(&rt, echoed(rt.alloc(), b"\xff"), "1 NotJson");
}

/// What reading a front gives: its text, or the fault.
fn echoed_front(alloc: Global, text: &str) -> Option<String> {
    match read_front(alloc, text.as_bytes()) {
        Ok(front) => write_front(alloc, &front).ok(),
        Err(fault) => said(alloc, &fault),
    }
}

/// Reading a front from this text gives this answer.
fn assert_front(rt: &impl Abort, alloc: Global, text: &str, wanted: &str) {
    assert_answer(rt, text, echoed_front(alloc, text), wanted);
}

/// Texts, each with the front that it spells or its first refusal.
const FRONTS: &[(&str, &str)] = &[
    ("[]", "[]"),
    (" [ [2,1,5] , [1,1,3] ]", "[[1,1,3],[2,1,5]]"),
    ("[[1,1,3],[1,1,4],[1,2,0],[1,1,0]]", "[[1,1,4]]"),
    ("[[7,7,0]]", "[]"),
    ("[[10,1,1],[9,2,1],[9,1,1]]", "[[9,1,1],[9,2,1],[10,1,1]]"),
    (
        "[[65535,4294967295,18446744073709551615]]",
        "[[65535,4294967295,18446744073709551615]]",
    ),
    ("{}", "1 NotJson"),
    ("[[1,1,1]", "1 NotJson"),
    ("[1]", "2 BadShape front"),
    ("[[1,1]]", "2 BadShape front"),
    ("[[1,1,1,1]]", "2 BadShape front"),
    ("[[65536,1,1]]", "2 BadShape front"),
    ("[[1,4294967296,1]]", "2 BadShape front"),
    ("[[1,1,1],[1,1,-1]]", "2 BadShape front"),
    ("[[1,1,1.0]]", "2 BadShape front"),
    ("[[1,1,18446744073709551616]]", "2 BadShape front"),
    ("[[1,1,1],7]", "2 BadShape front"),
    ("[\"[1,1,1]\"]", "2 BadShape front"),
    ("", "1 NotJson"),
    ("null", "1 NotJson"),
    ("[] []", "1 NotJson"),
];

// Entries may come in any order: the greatest number of a row counts, and 0 is as none.
#[test]
fn fronts(rt: HostRuntime) {
    for (text, wanted) in FRONTS {
        assert_front(&rt, rt.alloc(), text, wanted);
    }
}
