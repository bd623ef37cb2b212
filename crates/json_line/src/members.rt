//! The members of a JSON object, as they are written.

ghost use Rattle.std.specs.Prelude.{◌≡◌, ◌∷◌, [], OnOk, IfOk, decimal};
ghost use Rattle.std.specs.Fmt.{signed_decimal};
ghost use Rattle.json.specs.Token.{begin_array, begin_object, boolean, end_array, end_object, key, null, number, string};
ghost use Rattle.json_line.specs.Tokens.{AddsTokens, AreReadBack, json_line, number_if};

use json::Writer;
use lattice_core::NoMemory;
use std::alloc::Global;

/// Begins an object.
pub fn open_object(out: &mut Writer<Global>) -> Result<(), NoMemory>
    ensures { OnOk result (AddsTokens out.old out.new (begin_object ∷ [])) }
{
    out.begin_object()?;
    Ok(())
}

/// Begins an object under a key.
pub fn open_member(out: &mut Writer<Global>, name: &str) -> Result<(), NoMemory>
    ensures { OnOk result (AddsTokens out.old out.new (key name.now ∷ begin_object ∷ [])) }
{
    out.key(name)?;
    out.begin_object()?;
    Ok(())
}

/// Ends an object.
pub fn close_object(out: &mut Writer<Global>) -> Result<(), NoMemory>
    ensures { OnOk result (AddsTokens out.old out.new (end_object ∷ [])) }
{
    out.end_object()?;
    Ok(())
}

/// Begins a list under a key.
pub fn open_list(out: &mut Writer<Global>, name: &str) -> Result<(), NoMemory>
    ensures { OnOk result (AddsTokens out.old out.new (key name.now ∷ begin_array ∷ [])) }
{
    out.key(name)?;
    out.begin_array()?;
    Ok(())
}

/// Ends a list.
pub fn close_list(out: &mut Writer<Global>) -> Result<(), NoMemory>
    ensures { OnOk result (AddsTokens out.old out.new (end_array ∷ [])) }
{
    out.end_array()?;
    Ok(())
}

/// Adds a number under a key.
pub fn put_number(out: &mut Writer<Global>, name: &str, value: u64) -> Result<(), NoMemory>
    ensures { OnOk result (AddsTokens out.old out.new (key name.now ∷ number (decimal value) ∷ [])) }
{
    out.key(name)?;
    out.u64(value)?;
    Ok(())
}

/// Adds a number that may have a sign under a key.
pub fn put_signed(out: &mut Writer<Global>, name: &str, value: i64) -> Result<(), NoMemory>
    ensures { OnOk result (AddsTokens out.old out.new (key name.now ∷ number (signed_decimal value) ∷ [])) }
{
    out.key(name)?;
    out.i64(value)?;
    Ok(())
}

/// Adds a number under a key, or `null` where there is none.
pub fn put_option(out: &mut Writer<Global>, name: &str, value: Option<u64>) -> Result<(), NoMemory>
    ensures { OnOk result (AddsTokens out.old out.new (key name.now ∷ number_if value ∷ [])) }
{
    match value {
        Some(value) => put_number(out, name, value),
        None => put_null(out, name),
    }
}

/// Adds `null` under a key.
pub fn put_null(out: &mut Writer<Global>, name: &str) -> Result<(), NoMemory>
    ensures { OnOk result (AddsTokens out.old out.new (key name.now ∷ null ∷ [])) }
{
    out.key(name)?;
    out.null()?;
    Ok(())
}

/// Adds a text under a key.
pub fn put_text(out: &mut Writer<Global>, name: &str, value: &str) -> Result<(), NoMemory>
    ensures { OnOk result (AddsTokens out.old out.new (key name.now ∷ string value.now ∷ [])) }
{
    out.key(name)?;
    out.string(value)?;
    Ok(())
}

/// Adds `true` or `false` under a key.
pub fn put_flag(out: &mut Writer<Global>, name: &str, value: bool) -> Result<(), NoMemory>
    ensures { OnOk result (AddsTokens out.old out.new (key name.now ∷ boolean value ∷ [])) }
{
    out.key(name)?;
    out.boolean(value)?;
    Ok(())
}

/// The line of what was written: the JSON text and LF, in which a JSON reader finds the same tokens. The writer began
/// with no text.
pub fn line_of(out: Writer<Global>) -> Result<Vec<u8>, NoMemory>
    requires { out.before ≡ [] }
    ensures line { IfOk result (λ line. line.items ≡ json_line out.tokens) }
    ensures reads { AreReadBack out.tokens }
{
    let mut line = out.into_inner();
    line.push(b'\n')?;
    Ok(line)
}
