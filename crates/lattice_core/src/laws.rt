//! Laws of joins, each the promise of a function that does nothing.
ghost use Rattle.std.specs.Prelude.{◌≡◌, ◌↔◌, List, ◌∷◌, Contains};
ghost use Rattle.std.specs.Ordering.{ord_max};
ghost use Rattle.std.specs.FinMap as finite;
ghost use Rattle.lattice_core.specs.Keep.{pair_order};
ghost use Rattle.lattice_core.specs.Join.{Covers, joined_all, option_joined};
ghost use Rattle.lattice_core.specs.Greatest.{IsGreatest};
ghost use Rattle.lattice_core.specs.JoinMap.{map_joined};

use super::join::Join;
use super::keep::Keep;

/// What a state covers is a partial order, and the join of two states is the least state that covers both.
pub fn covering_is_the_order_of_the_join<J: Join>()
    ensures itself { (a : J.Shape) → Covers J.joined a a }
    ensures chains { (a b c : J.Shape)
        → Covers J.joined a b → Covers J.joined b c → Covers J.joined a c }
    ensures antisymmetric { (a b : J.Shape) → Covers J.joined a b → Covers J.joined b a → a ≡ b }
    ensures upper { (a b : J.Shape)
        → Covers J.joined (J.joined a b) a × Covers J.joined (J.joined a b) b }
    ensures least { (a b c : J.Shape)
        → Covers J.joined c a → Covers J.joined c b → Covers J.joined c (J.joined a b) }
{}

/// Lists of states with the same members have the same join: neither their order nor repeats matter.
pub fn lists_join_in_any_order<J: Join>()
    ensures { (a b : J.Shape) (xs ys : List J.Shape)
        → ((s : J.Shape) → Contains (a ∷ xs) s ↔ Contains (b ∷ ys) s)
        → joined_all J.joined a xs ≡ joined_all J.joined b ys }
{}

/// Registers join to the greatest of their pairs.
pub fn registers_join_to_the_greatest<K: Keep, V: Keep>()
    ensures { (first : K.Shape × V.Shape) (rest : List (K.Shape × V.Shape))
        → IsGreatest (pair_order K.order V.order) (first ∷ rest)
        (joined_all (ord_max (pair_order K.order V.order)) first rest) }
{}

/// The join of two maps has at each key the join of what the two have there.
pub fn maps_join_key_by_key<K: Keep, V: Join>()
    ensures { (m n : finite.FinMap K.order V.Shape) (key : K.Shape)
        → finite.get (map_joined V.joined m n) key
        ≡ option_joined V.joined (finite.get m key) (finite.get n key) }
{}
