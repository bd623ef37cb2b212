//! A JSON text as a member of an object, as it is written.

ghost use Rattle.std.specs.Prelude.{◌∷◌, OnOk};
ghost use Rattle.json.specs.Lex.{tokens};
ghost use Rattle.json.specs.Token.{key};
ghost use Rattle.json_line.specs.Tokens.{AddsTokens};

use json::{Reader, Scratch, Token, Writer};
use lattice_core::NoMemory;
use std::alloc::Global;

/// Adds what a JSON text says under a key, token by token. A text that is no JSON is refused, too: nothing could be
/// written of it. It costs O(n) for n bytes of the text.
pub fn put_json(
    alloc: Global,
    out: &mut Writer<Global>,
    name: &str,
    text: &str,
) -> Result<(), NoMemory>
    ensures { OnOk result (AddsTokens out.old out.new (key name.now ∷ tokens text.now)) }
{
    out.key(name)?;
    add_tokens(alloc, out, text)
}

/// Adds the tokens of a JSON text.
fn add_tokens(alloc: Global, out: &mut Writer<Global>, text: &str) -> Result<(), NoMemory>
    ensures { OnOk result (AddsTokens out.old out.new (tokens text.now)) }
{
    let mut scratch = Scratch::new(alloc);
    let mut reader = Reader::new(text, &mut scratch)?;
    while let Some(token) = reader.next() {
        if matches!(token, Token::Bad) {
            return Err(NoMemory);
        }
        out.token(token)?;
    }
    Ok(())
}
