//! States that merge by a join.

ghost use Rattle.std.specs.Prelude.{◌≡◌, ◌↔◌, [], IsTrue, IsOk, IfOk, OnOk, OnErr, IfSome, IsNone, map};
ghost use Rattle.std.specs.List.{reduce};
ghost use Rattle.std.specs.Option.{option_map};
ghost use Rattle.lattice_core.specs.Join.{IsJoin, IsBetween, IsLeastCover, Covers};

use super::memory::NoMemory;
use std::alloc::Allocator;

/// A state that merges with others of its type by a join: in whatever order, grouping and number states are joined, the
/// same state comes out (Shapiro, Preguiça, Baquero and Zawirski, "Conflict-free replicated data types", 2011).
///
/// The laws are part of the trait, and each implementation proves them.
pub trait Join: Drop {
    /// What states are, wherever they lie in memory.
    ghost Shape: { Type 0 };

    /// The shape of a state.
    ghost shape: { Self → Shape };

    /// The join of two shapes.
    ghost joined: { Shape → Shape → Shape };

    /// That a join takes no memory.
    ghost is_infallible: { Type 0 } = { ⊥ };

    /// Joins the other state into this one. After a refusal this state covers the old one and is covered by the join.
    fn join(&mut self, other: Self) -> Result<(), NoMemory>
    where
        Self: Sized,
        ensures ok { OnOk result (shape self.new ≡ joined (shape self.old) (shape other)) }
        ensures err { let whole = joined (shape self.old) (shape other) in
            OnErr result (IsBetween joined (shape self.old) (shape self.new) whole) }
        ensures infallible { is_infallible → IsOk result };

    /// Whether joining the other state into this one would change nothing.
    fn covers(&self, other: &Self) -> bool
        ensures { IsTrue result ↔ Covers joined (shape self.now) (shape other.now) };

    /// Whether the two are the same state.
    fn same(&self, other: &Self) -> bool
        ensures { IsTrue result ↔ (shape self.now ≡ shape other.now) };

    /// The same state once more.
    fn copy(&self) -> Result<Self, NoMemory>
    where
        Self: Sized,
        ensures { IfOk result (λ made. shape made ≡ shape self.now) };

    ghost laws: { IsJoin joined };
}

/// The join of all these states, or none where there is none. It takes the memory that the joins take, and a refusal
/// drops the states.
pub fn join_all<J: Join, A: Allocator>(states: Vec<J, A>) -> Result<Option<J>, NoMemory>
    ensures none { IfOk result (λ whole. IsNone whole ↔ (states.items ≡ [])) }
    ensures joined { IfOk result (λ whole. option_map J.shape whole ≡ reduce J.joined (map J.shape states.items)) }
    ensures least { let shapes = map J.shape states.items in
        IfOk result (λ whole. IfSome whole (λ cover. IsLeastCover J.joined shapes (J.shape cover))) }
    ensures infallible { J.is_infallible → IsOk result }
{
    let mut rest = states.into_iter();
    let Some(mut whole) = rest.next() else {
        return Ok(None);
    };
    for state in rest {
        whole.join(state)?;
    }
    Ok(Some(whole))
}
