//! The items of a list that is taken apart, one after the other.

ghost use Rattle.std.specs.Prelude.{◌≡◌, ◌++◌, ◌<◌, length};
ghost use Rattle.std.specs.Iterator.{YieldsFirst, item_count};
ghost use Rattle.std.specs.List.{All, flat_map};

use std::alloc::{Allocator, Global};
use std::marker::Model;
use std::vec;

/// What is left of a list that is taken apart, from the front. Contracts see its items.
#[derive(Drop)]
pub struct IntoIter<T, A: Allocator + Copy = Global> {
    items: vec::IntoIter<T, A>,
    chunks: vec::IntoIter<Vec<T, A>, A>,
}

impl<T, A: Allocator + Copy> Model for IntoIter<T, A> {
    ghost use Rattle.std.specs.Prelude.{List, ◌++◌, ◌<◌, length};
    ghost use Rattle.std.specs.List.{All, flat_map};
    ghost use Rattle.std.specs.Vec.Iter.{into_iter_items};

    ghost Value = { List T };

    ghost view = { λ i. into_iter_items i.items ++ flat_map (λ chunk. chunk.items) (into_iter_items i.chunks) };

    ghost invariant = { λ i. All (λ chunk. 0 < length chunk.items) (into_iter_items i.chunks) };
}

impl<T, A: Allocator + Copy> IntoIter<T, A> {
    /// All items.
    pub(super) fn of(first: Vec<T, A>, rest: Vec<Vec<T, A>, A>) -> IntoIter<T, A>
        requires { All (λ chunk. 0 < length chunk.items) rest.items }
        ensures { result ≡ first.items ++ flat_map (λ chunk. chunk.items) rest.items }
    {
        IntoIter {
            items: first.into_iter(),
            chunks: rest.into_iter(),
        }
    }
}

impl<T: Drop, A: Allocator + Copy> Iterator for IntoIter<T, A> {
    type Item = T;

    ghost next_gives = { YieldsFirst (λ i. i) };

    ghost remaining = { item_count (λ i. i) };

    fn next(&mut self) -> Option<T> {
        if let Some(item) = self.items.next() {
            return Some(item);
        }
        self.items = self.chunks.next()?.into_iter();
        self.items.next()
    }
}
