//! Reads the parts of a text that is as it is written: literals, numbers and quoted texts. Each answers what it read
//! and what follows it, and nothing where another part is there.

ghost use Rattle.std.specs.Prelude.{◌≡◌, ◌+◌, ◌∷◌, ◌++◌, [], ◌≤◌, length, take, decimal, IfSome, IsTrue, string_bytes};
ghost use Rattle.std.specs.Fmt.{signed_decimal};
ghost use Rattle.std.specs.Char.{is_ascii_digit};
ghost use Rattle.json.specs.Print.{escape, escape_byte, quoted};
ghost use Rattle.std.specs.Bool.{OnTrue};
ghost use Rattle.json.specs.Written.{PlainBetween};
ghost use Rattle.op_text.specs.Canonical.{optional_text};

use std::alloc::Global;
use std::simd::prelude::*;

/// What follows a literal.
#[inline(always)]
pub fn after<'a>(text: &'a [u8], literal: &[u8]) -> Option<&'a [u8]>
    ensures { IfSome result (λ rest. text.now ≡ literal.now ++ rest.now) }
{
    if text.len() < literal.len() {
        return None;
    }
    for (i, byte) in literal.iter().enumerate() {
        if text[i] != *byte {
            return None;
        }
    }
    Some(&text[literal.len()..])
}

/// A number behind a literal.
#[inline(always)]
pub fn number<'a>(text: &'a [u8], literal: &[u8]) -> Option<(u64, &'a [u8])>
    ensures { IfSome result (λ (number, rest). text.now ≡ literal.now ++ (decimal number ++ rest.now)) }
{
    decimal(after(text, literal)?)
}

/// A number of 32 bits behind a literal.
#[inline(always)]
pub fn number32<'a>(text: &'a [u8], literal: &[u8]) -> Option<(u32, &'a [u8])>
    ensures { IfSome result (λ (number, rest). text.now ≡ literal.now ++ (decimal number ++ rest.now)) }
{
    let (number, rest) = number(text, literal)?;
    let number = u32::try_from(number).ok()?;
    Some((number, rest))
}

/// A number of 16 bits behind a literal.
#[inline(always)]
pub fn number16<'a>(text: &'a [u8], literal: &[u8]) -> Option<(u16, &'a [u8])>
    ensures { IfSome result (λ (number, rest). text.now ≡ literal.now ++ (decimal number ++ rest.now)) }
{
    let (number, rest) = number(text, literal)?;
    let number = u16::try_from(number).ok()?;
    Some((number, rest))
}

/// A number behind a literal, or none where the literal isn't there.
#[inline(always)]
pub fn optional<'a>(text: &'a [u8], literal: &[u8]) -> Option<(Option<u64>, &'a [u8])>
    ensures { IfSome result (λ (number, rest). text.now ≡ optional_text literal.now number rest.now) }
{
    let Some(rest) = after(text, literal) else {
        return Some((None, text));
    };
    let (number, rest) = decimal(rest)?;
    Some((Some(number), rest))
}

/// A number of 32 bits behind a literal, or none where the literal isn't there.
#[inline(always)]
pub fn optional32<'a>(text: &'a [u8], literal: &[u8]) -> Option<(Option<u32>, &'a [u8])>
    ensures { IfSome result (λ (number, rest). text.now ≡ optional_text literal.now number rest.now) }
{
    let Some(rest) = after(text, literal) else {
        return Some((None, text));
    };
    let (number, rest) = decimal(rest)?;
    let number = u32::try_from(number).ok()?;
    Some((Some(number), rest))
}

/// A small integer behind a literal.
#[inline(always)]
pub fn integer<'a>(text: &'a [u8], literal: &[u8]) -> Option<(i8, &'a [u8])>
    ensures { IfSome result
        (λ (integer, rest). text.now ≡ literal.now ++ (signed_decimal integer ++ rest.now)) }
{
    signed(after(text, literal)?)
}

/// A quoted text behind a literal.
#[inline(always)]
pub fn text<'a>(alloc: Global, bytes: &'a [u8], literal: &[u8]) -> Option<(String, &'a [u8])>
    ensures { IfSome result
        (λ (read, rest). bytes.now ≡ literal.now ++ (quoted (string_bytes read) ++ rest.now)) }
{
    unquoted(alloc, after(bytes, literal)?)
}

/// A quoted text.
#[inline(always)]
pub fn unquoted(alloc: Global, text: &[u8]) -> Option<(String, &[u8])>
    ensures { IfSome result (λ (read, rest). text.now ≡ quoted (string_bytes read) ++ rest.now) }
{
    unescaped(alloc, after(text, b"\"")?)
}

/// A number in decimal digits, of which the first is 0 in `0` alone.
#[inline(never)]
fn decimal(text: &[u8]) -> Option<(u64, &[u8])>
    ensures { IfSome result (λ (number, rest). text.now ≡ decimal number ++ rest.now) }
{
    let (first, rest) = text.split_first()?;
    if !first.is_ascii_digit() {
        return None;
    }
    longer(u64::from(*first - b'0'), rest)
}

/// A number that begins with the digits of a number.
fn longer(front: u64, text: &[u8]) -> Option<(u64, &[u8])>
    ensures { IfSome result
        (λ (number, rest). decimal front ++ text.now ≡ decimal number ++ rest.now) }
{
    let mut number = front;
    for (i, digit) in text.iter().enumerate() {
        if !digit.is_ascii_digit() {
            return Some((number, &text[i..]));
        }
        number = with_digit(number, *digit)?;
    }
    None
}

/// A number with one digit more, if it may have one.
fn with_digit(number: u64, digit: u8) -> Option<u64>
    requires { IsTrue (is_ascii_digit digit) }
    ensures { IfSome result (λ longer. decimal longer ≡ decimal number ++ digit ∷ []) }
{
    if number == 0 {
        return None;
    }
    number.checked_mul(10)?.checked_add(u64::from(digit - b'0'))
}

/// A small integer, which may be negative.
#[inline(never)]
fn signed(text: &[u8]) -> Option<(i8, &[u8])>
    ensures { IfSome result (λ (integer, rest). text.now ≡ signed_decimal integer ++ rest.now) }
{
    let Some(digits) = after(text, b"-") else {
        let (number, rest) = decimal(text)?;
        let integer = i8::try_from(number).ok()?;
        return Some((integer, rest));
    };
    let (number, rest) = decimal(digits)?;
    let integer = negative(number)?;
    Some((integer, rest))
}

/// The small negative integer of a magnitude.
fn negative(magnitude: u64) -> Option<i8>
    ensures { IfSome result (λ integer. signed_decimal integer ≡ 45 ∷ decimal magnitude) }
{
    if magnitude == 0 || magnitude > 128 {
        return None;
    }
    Some((-(magnitude as i16)) as i8)
}

/// The text up to the closing quote.
#[inline(never)]
fn unescaped(alloc: Global, text: &[u8]) -> Option<(String, &[u8])>
    ensures { IfSome result
        (λ (read, rest). text.now ≡ escape (string_bytes read) ++ 34 ∷ rest.now) }
{
    let mut read = Vec::new(alloc);
    let mut left = text;
    for _ in 0..text.len() {
        let (plain, rest) = left.split_at(plain_len(left));
        read.extend_from_slice(plain).ok()?;
        if let Some(rest) = after(rest, b"\"") {
            return Some((String::from_utf8(read).ok()?, rest));
        }
        let (byte, rest) = escaped(rest)?;
        read.push(byte).ok()?;
        left = rest;
    }
    None
}

/// How many bytes come before the first quote, backslash or control byte.
pub fn plain_len(text: &[u8]) -> usize
    ensures within { result ≤ length text.now }
    ensures plain { escape (take result text.now) ≡ take result text.now }
{
    plain_end(text, plain_groups(text))
}

/// The place of the first quote, backslash or control byte from a place on.
fn plain_end(text: &[u8], from: usize) -> usize
    requires within { from ≤ length text.now }
    requires plain { PlainBetween text.now 0 from }
    ensures within { result ≤ length text.now }
    ensures plain { PlainBetween text.now 0 result }
{
    for i in from..text.len() {
        let byte = text[i];
        if byte == b'"' || byte == b'\\' || byte < b' ' {
            return i;
        }
    }
    text.len()
}

/// How many bytes come before the first sixteen that aren't all plain.
fn plain_groups(text: &[u8]) -> usize
    ensures within { result ≤ length text.now }
    ensures plain { PlainBetween text.now 0 result }
{
    let mut at = 0;
    while text.len() - at >= 16 {
        if !are_plain(text, at) {
            return at;
        }
        at += 16;
    }
    at
}

/// Whether sixteen bytes from a place on have no quote, no backslash and no control byte.
fn are_plain(text: &[u8], at: usize) -> bool
    requires { at + 16 ≤ length text.now }
    ensures { OnTrue result (PlainBetween text.now at (at + 16)) }
{
    let group = u8x16::from_slice(&text[at..]);
    let stops = group.simd_eq(u8x16::splat(b'"'))
        | group.simd_eq(u8x16::splat(b'\\'))
        | group.simd_lt(u8x16::splat(b' '));
    stops.to_bitmask() == 0
}

/// The byte of an escape of one letter. Escapes by a number are left to the JSON reader.
fn escaped(text: &[u8]) -> Option<(u8, &[u8])>
    ensures { IfSome result (λ (byte, rest). text.now ≡ escape_byte byte ++ rest.now) }
{
    let (letter, rest) = after(text, b"\\")?.split_first()?;
    let byte = meant(*letter)?;
    Some((byte, rest))
}

/// The byte whose escape is this letter.
fn meant(letter: u8) -> Option<u8>
    ensures { IfSome result (λ byte. escape_byte byte ≡ 92 ∷ letter ∷ []) }
{
    match letter {
        b'"' => Some(b'"'),
        b'\\' => Some(b'\\'),
        b'n' => Some(b'\n'),
        b't' => Some(b'\t'),
        b'r' => Some(b'\r'),
        b'b' => Some(8),
        b'f' => Some(12),
        _ => None,
    }
}
