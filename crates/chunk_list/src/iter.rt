//! The items of a list, one after the other.

ghost use Rattle.std.specs.Prelude.{◌≡◌, ◌<◌, ◌++◌, [], drop, length};
ghost use Rattle.std.specs.Iterator.{YieldsFirstRef, item_count};
ghost use Rattle.std.specs.List.{All, flat_map};
ghost use Rattle.chunk_list.specs.Chunks.{place_of, IsInside};

use super::spot::Spot;
use std::alloc::{Allocator, Global};
use std::marker::Model;

/// What is left of a list, from the front. Contracts see its items.
#[derive(Drop)]
pub struct Iter<'a, T, A: Allocator + Copy = Global> {
    items: &'a [T],
    chunks: &'a [Vec<T, A>],
}

impl<'a, T, A: Allocator + Copy> Model for Iter<'a, T, A> {
    ghost use Rattle.std.specs.Prelude.{List, ◌++◌, ◌<◌, length};
    ghost use Rattle.std.specs.List.{All, flat_map};

    ghost Value = { List T };

    ghost view = { λ i. i.items.now ++ flat_map (λ chunk. chunk.items) i.chunks.now };

    ghost invariant = { λ i. All (λ chunk. 0 < length chunk.items) i.chunks.now };
}

impl<'a, T, A: Allocator + Copy> Iter<'a, T, A> {
    /// None.
    pub(super) fn none() -> Iter<'a, T, A>
        ensures { result ≡ [] }
    {
        Iter {
            items: &[],
            chunks: &[],
        }
    }

    /// All of these items, and those of the chunks.
    pub(super) fn all(items: &'a [T], chunks: &'a [Vec<T, A>]) -> Iter<'a, T, A>
        requires { All (λ chunk. 0 < length chunk.items) chunks.now }
        ensures { result ≡ items.now ++ flat_map (λ chunk. chunk.items) chunks.now }
    {
        Iter { items, chunks }
    }

    /// The items from a spot on.
    pub(super) fn from(chunks: &'a [Vec<T, A>], spot: Spot) -> Iter<'a, T, A>
        requires filled { All (λ chunk. 0 < length chunk.items) chunks.now }
        requires inside { IsInside (λ chunk. chunk.items) chunks.now spot.chunk spot.index }
        ensures { result ≡ drop (place_of (λ chunk. chunk.items) chunks.now spot.chunk spot.index)
            (flat_map (λ chunk. chunk.items) chunks.now) }
    {
        match chunks.get(spot.chunk) {
            Some(chunk) => Iter {
                items: items_from(chunk.as_slice(), spot.index),
                chunks: items_from(chunks, spot.chunk + 1),
            },
            None => Iter {
                items: &[],
                chunks: &[],
            },
        }
    }
}

/// The items from an index on.
pub(super) fn items_from<X>(items: &[X], index: usize) -> &[X]
    ensures { result.now ≡ drop index items.now }
{
    items.get(index..).unwrap_or(&[])
}

impl<'a, T, A: Allocator + Copy> Iterator for Iter<'a, T, A> {
    type Item = &'a T;

    ghost next_gives = { YieldsFirstRef (λ i. i) };

    ghost remaining = { item_count (λ i. i) };

    fn next(&mut self) -> Option<&'a T> {
        if let Some((first, items)) = self.items.split_first() {
            self.items = items;
            return Some(first);
        }
        let (chunk, chunks) = self.chunks.split_first()?;
        let (first, items) = chunk.as_slice().split_first()?;
        self.items = items;
        self.chunks = chunks;
        Some(first)
    }
}
