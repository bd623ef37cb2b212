//! Marks for a block of targets: one bit for each of 512.

ghost use Rattle.std.specs.Prelude.{◌≡◌, ◌<◌, ◌≤◌, ◌^◌, ℕ, count_ones, length, slice_index, sum_by};

/// How many targets a block has.
pub const TARGETS: usize = 512;

/// The words of a block's marks.
const WORDS: usize = 8;

/// Which targets of a block are marked.
#[derive(Clone, Copy, PartialEq, Eq)]
pub struct Marks {
    words: [u64; WORDS],
    ghost size: { length words ≡ 8 },
    ghost in_range: { (k : ℕ) → slice_index words k < 2 ^ 64 },
}

impl Marks {
    ghost use Rattle.walk_core.specs.Marks.{AreJoined, HasMark, PutsMark};

    /// No target is marked.
    pub fn none() -> Marks
        ensures { (target : ℕ) → ¬ HasMark result.words target }
    {
        Marks { words: [0; WORDS] }
    }

    /// Marks a target.
    pub fn put(&mut self, target: usize)
        requires { target < 512 }
        ensures { PutsMark target self.old.words self.new.words }
    {
        self.words[target / 64] |= 1 << (target % 64);
    }

    /// What is marked in one of both.
    pub fn joined(self, other: Marks) -> Marks
        ensures { AreJoined self.words other.words result.words }
    {
        let mut words = self.words;
        for index in 0..WORDS {
            words[index] |= other.words[index];
        }
        Marks { words }
    }

    /// How many targets are marked.
    pub fn count(self) -> usize
        ensures { result ≡ sum_by count_ones self.words }
    {
        let mut count = 0;
        for index in 0..WORDS {
            count += ones(self.words[index]);
        }
        count
    }
}

/// How many bits of a word are set. Most words have none or all.
fn ones(word: u64) -> usize
    ensures value { result ≡ count_ones word }
    ensures bound { result ≤ 64 }
{
    match word {
        0 => 0,
        u64::MAX => 64,
        _ => word.count_ones() as usize,
    }
}
