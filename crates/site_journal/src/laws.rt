//! What holds of journals, over the definitions alone.

ghost use Rattle.std.specs.Prelude.{◌≡◌, ◌⊎◌, ◌++◌, [], ℕ, List, take};
ghost use Rattle.review_ops.specs.Operation.{Operation};
ghost use Rattle.snapshot_text.specs.Snapshot.{operation_lines};
ghost use Rattle.snapshot_text.specs.Sound.{AreSoundOperations};
ghost use Rattle.site_journal.specs.Book.{Recovers};
ghost use Rattle.site_journal.specs.Prefixes.{IsPrefix};
ghost use Rattle.site_journal.specs.Text.{AreShort, IsFresh, SaysJournal, header_line, journal_text};

use op_text::{operations_are_spelled, texts_spell_once};

/// A law: a text has one reading at most as a journal, and a prefix of the first line has none.
pub fn journals_have_one_reading()
    ensures one { (text : List ℕ) (ops others : List Operation) (rest other : List ℕ)
        → SaysJournal text ops rest → SaysJournal text others other → (ops ≡ others) × (rest ≡ other) }
    ensures fresh { (text : List ℕ) (ops : List Operation) (rest : List ℕ) → SaysJournal text ops rest → ¬ IsFresh text }
{
    texts_spell_once();
}

/// A law: the text of a journal says its operations, and lines that are added say theirs.
pub fn journals_say_their_operations()
    ensures first { (ops : List Operation) → AreSoundOperations ops → AreShort ops → SaysJournal (journal_text ops) ops [] }
    ensures more { (text : List ℕ) (ops more : List Operation)
        → SaysJournal text ops [] → AreSoundOperations more → AreShort more → SaysJournal (text ++ operation_lines more) (ops ++ more) [] }
{
    operations_are_spelled();
}

/// A law: what a crash leaves of a journal to which operations were being added says all that it did before, and the
/// first so many of them. What it leaves of the first line is a prefix of it, or says nothing.
pub fn crashes_lose_nothing_acknowledged()
    ensures lines { (text left : List ℕ) (ops more : List Operation) → SaysJournal text ops [] → AreSoundOperations more → AreShort more
        → IsPrefix text left → IsPrefix left (text ++ operation_lines more)
        → (count : ℕ) × (rest : List ℕ) × SaysJournal left (ops ++ take count more) rest }
    ensures first { (left : List ℕ) → IsPrefix left header_line → IsFresh left ⊎ SaysJournal left [] [] }
{
    operations_are_spelled();
}
