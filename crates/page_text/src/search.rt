//! Whether texts contain what is searched for.
//!
//! Both come from outside. Not taken: a comparison at each place of a text, which costs the product of both lengths.

ghost use Rattle.std.specs.Prelude.{◌≡◌, IfOk, List, map, ℕ};
ghost use Rattle.std.specs.Char.{to_ascii_lowercase};
ghost use Rattle.page_text.specs.Search.{contains};

use memchr::memmem::Finder;
use std::alloc::{AllocError, Global};
use std::marker::Model;

/// A search for the same words in many texts, without regard to the case of ASCII letters. It has one text in lower
/// case at a time, whose room is used again for the next.
#[derive(Drop)]
pub struct Search {
    finder: Finder<'static>,
    text: Vec<u8>,
}

/// In contracts a search is its words in lower case.
impl Model for Search {
    ghost Value = { List ℕ };

    ghost view = { λ search. search.finder };
}

impl Search {
    /// A search for these words. It costs O(n) for words of n bytes.
    pub fn new(alloc: Global, words: &[u8]) -> Result<Search, AllocError>
        ensures { IfOk result (λ search. search ≡ map to_ascii_lowercase words.now) }
    {
        let words = words.to_ascii_lowercase(alloc)?;
        let finder = Finder::new(words.as_slice()).into_owned(alloc)?;
        Ok(Search {
            finder,
            text: Vec::new(alloc),
        })
    }

    /// Whether a text contains the words. It costs O(n + m) for a text of n bytes and words of m bytes.
    pub fn finds(&mut self, text: &[u8]) -> Result<bool, AllocError>
        ensures found { IfOk result (λ found. found ≡ contains self.old (map to_ascii_lowercase text.now)) }
        ensures words { self.new ≡ self.old }
    {
        self.text.clear();
        self.text.extend_from_slice(text)?;
        self.text.as_mut_slice().make_ascii_lowercase();
        Ok(self.finder.find(self.text.as_slice()).is_some())
    }
}
