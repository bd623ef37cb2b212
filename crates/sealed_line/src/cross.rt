//! The cipher.

ghost use Rattle.std.specs.Prelude.{◌≡◌, length};
ghost use Rattle.sealed_line.specs.Keystream.{crossed_under, crossed_with, keystream};

use rand_chacha::ChaCha20Rng;
use rand_core::SeedableRng;
use rand_core::utils::fill_bytes_via_u32;

/// Writes a text, crossed with the keystream of its count, over a slice of its length. It takes no memory.
pub(super) fn cross(key: &[u8; 32], count: u64, text: &[u8], into: &mut [u8])
    requires { length into.old ≡ length text.now }
    ensures { into.new ≡ crossed_under key.now count text.now }
{
    write_keystream(key, count, into);
    cross_with(text, into);
}

/// Writes the keystream of a count over a slice.
fn write_keystream(key: &[u8; 32], count: u64, into: &mut [u8])
    ensures { into.new ≡ keystream key.now count (length into.old) }
{
    let mut stream = ChaCha20Rng::from_seed(*key);
    stream.set_stream(count);
    fill_bytes_via_u32(&mut stream, into);
}

/// Crosses keys with the bytes of a text.
fn cross_with(text: &[u8], keys: &mut [u8])
    requires { length keys.old ≡ length text.now }
    ensures { keys.new ≡ crossed_with text.now keys.old }
{
    for (i, byte) in text.iter().enumerate() {
        keys[i] ^= byte;
    }
}
