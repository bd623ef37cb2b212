//! Bytes in hex.

ghost use Rattle.std.specs.Prelude.{◌≡◌, ◌≢◌, ◌≤◌, List, ℕ, MatchOption, length};
ghost use Rattle.hex.specs.Hex.{IsBytes, encode_lower};

use keyed_digest::is_same;

/// The bytes that a text writes in hex, in lower case, two digits a byte; nothing where it isn't that many bytes in
/// hex, or has a letter in upper case. It takes no memory.
pub fn lower_hex<const N: usize>(text: &[u8]) -> Option<[u8; N]>
    requires { N ≤ 32 }
    ensures { MatchOption result ((bytes : List ℕ) → length bytes ≡ N → IsBytes bytes → text.now ≢ encode_lower bytes)
        (λ bytes. text.now ≡ encode_lower bytes) }
{
    let mut bytes = [0; N];
    let Ok(()) = hex::decode_to_slice(text, bytes.as_mut_slice()) else {
        return None;
    };
    let mut buffer = [0; 64];
    let digits = &mut buffer[..2 * N];
    let Ok(()) = hex::encode_to_slice(bytes.as_slice(), digits) else {
        return None;
    };
    if is_same(text, digits) {
        return Some(bytes);
    }
    None
}
