//! What the seal does.

ghost use Rattle.std.specs.Prelude.{◌≡◌, ◌<◌, ◌^◌, ℕ, List, length};
ghost use Rattle.base64.specs.GeneralPurpose.{IsBytes};
ghost use Rattle.rand_chacha.specs.Block.{initial_state};
ghost use Rattle.sealed_line.specs.Sealing.{Opens, Sealing, crossed, sealed};

/// Opening what was sealed under the same keys and count gives it back, and nothing else. And a line has one text.
pub fn opening_gives_back()
    ensures back { (s : Sealing) (text opened : List ℕ)
        → IsBytes text → Opens s (sealed s (crossed s text)) opened → opened ≡ text }
    ensures opens { (s : Sealing) (text : List ℕ) → IsBytes text → Opens s (sealed s (crossed s text)) text }
{}

/// Two blocks of the keystream that begin alike are of one count, and one block of it: where each line has a count of
/// its own no part of the keystream comes twice.
pub fn no_block_twice()
    ensures { (key : List ℕ) (count block other other_block : ℕ)
        → initial_state key block count ≡ initial_state key other_block other → (count ≡ other) × (block ≡ other_block) }
{}
