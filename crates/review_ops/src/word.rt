//! Which texts are labels, and which can name a voter.

ghost use Rattle.std.specs.Prelude.{◌≡◌, ◌↔◌, IsTrue};
ghost use Rattle.review_ops.specs.Good.{IsLabel, IsVoter, is_label_byte};

/// Whether a byte is an ASCII letter, an ASCII digit or `-`.
fn is_label_byte(byte: u8) -> bool
    ensures { result ≡ is_label_byte byte }
{
    byte.is_ascii_alphanumeric() || byte == b'-'
}

/// Whether a text is a label, in any case of letters.
pub fn is_label(text: &str) -> bool
    ensures { IsTrue result ↔ IsLabel text.now }
{
    (1..=64).contains(&text.len()) && text.bytes().all(|byte| is_label_byte(byte))
}

/// Whether a text can name a voter.
pub fn is_voter(text: &str) -> bool
    ensures { IsTrue result ↔ IsVoter text.now }
{
    (1..=64).contains(&text.len()) && text.bytes().all(|byte| byte.is_ascii_graphic())
}
