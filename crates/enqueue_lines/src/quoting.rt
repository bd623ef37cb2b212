//! Quotes words for a shell.

ghost use Rattle.std.specs.Prelude.{◌≡◌, ◌++◌, List, OnOk, Some, ℕ, flat_map};
ghost use Rattle.std.specs.List.{list_all};
ghost use Rattle.enqueue_lines.specs.Quoting.{is_plain, is_bare_byte, quoted, within_quotes, word_read};

use std::alloc::AllocError;

/// Bytes beside letters and digits that a shell takes as they are.
const PLAIN_BYTES: &[u8; 10] = b"_./:,@%+=-";

/// Adds a word as a POSIX shell reads it back: as it is, where it isn't empty and has only letters, digits and
/// `_./:,@%+=-`, and else in single quotes, with each single quote as `'\''`. It costs O(n) for n bytes.
pub fn add_quoted(text: &mut Vec<u8>, word: &[u8]) -> Result<(), AllocError>
    ensures { OnOk result (text.new.items ≡ text.old.items ++ quoted word.now) }
{
    if is_plain(word) {
        return text.extend_from_slice(word);
    }
    text.extend_from_slice(b"'")?;
    add_within(text, word)?;
    text.extend_from_slice(b"'")
}

/// A law: a shell reads a quoted word as that word.
pub fn quoted_words_are_read_again()
    ensures { (word : List ℕ) → word_read (quoted word) ≡ Some word }
{}

/// Whether a shell takes each byte of a word as it is.
fn is_plain(word: &[u8]) -> bool
    ensures { result ≡ is_plain word.now }
{
    !word.is_empty() && are_plain(word)
}

/// Whether a shell takes each of some bytes as it is.
fn are_plain(bytes: &[u8]) -> bool
    ensures { result ≡ list_all is_bare_byte bytes.now }
{
    bytes.iter().all(|byte| is_plain_byte(*byte))
}

/// Whether a shell takes a byte as it is.
fn is_plain_byte(byte: u8) -> bool
    ensures { result ≡ is_bare_byte byte }
{
    byte.is_ascii_alphanumeric() || PLAIN_BYTES.contains(&byte)
}

/// Adds what is between the quotes of a word.
fn add_within(text: &mut Vec<u8>, word: &[u8]) -> Result<(), AllocError>
    ensures { OnOk result (text.new.items ≡ text.old.items ++ flat_map within_quotes word.now) }
{
    for byte in word {
        add_byte(text, *byte)?;
    }
    Ok(())
}

/// Adds a byte of a word between quotes.
fn add_byte(text: &mut Vec<u8>, byte: u8) -> Result<(), AllocError>
    ensures { OnOk result (text.new.items ≡ text.old.items ++ within_quotes byte) }
{
    if byte == b'\'' {
        return text.extend_from_slice(br"'\''");
    }
    text.push(byte)?;
    Ok(())
}
