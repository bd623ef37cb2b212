//! What holds of every graph, whatever its nodes are. Edges are held as the list of the ends of each node's edges.

ghost use Rattle.std.specs.Prelude.{◌≡◌, ◌↔◌, ◌≤◌, ℕ, Bool, List, Option, length, slice_get};
ghost use Rattle.std.proofs.Common.{suc};
ghost use Rattle.std.specs.declared.cmp.Ordering.{Ordering};
ghost use Rattle.lattice_core.specs.Keep.{IsExactOrder};
ghost use Rattle.walk_core.specs.Ranks.{EndsStandBefore, IsInRankOrder, TogetherStandTogether};
ghost use Rattle.walk_core.specs.Digraphs.{AreDistances, HasEdge, IsMarked, IsWithin};
ghost use Rattle.walk_core.specs.Walks.{BeginsFewest, IsDistance, IsEdge, IsOfKind, IsOnCycle, Leads, IsReachedOver};

/// A law: what is reached from a node that is reached is reached, so nodes that reach each other are on a cycle.
pub fn reaching_goes_on<N>()
    ensures further { (ends : N → List N) → (x y z : N)
        → IsReachedOver (IsEdge ends) x y → IsReachedOver (IsEdge ends) y z → IsReachedOver (IsEdge ends) x z }
    ensures cycle { (ends : N → List N) → (x y : N)
        → IsReachedOver (IsEdge ends) x y → IsReachedOver (IsEdge ends) y x → IsOnCycle (IsEdge ends) x }
{}

/// A law: a node has one distance to those of some kind, if it has one. From a node at a distance above 0 an edge leads
/// to one at the distance below it, and no edge leads nearer.
pub fn distances_go_down<N>()
    ensures once { (ends : N → List N) → (kind : N → Bool) → (n m : ℕ) → (x : N)
        → IsDistance (IsEdge ends) (IsOfKind kind) n x → IsDistance (IsEdge ends) (IsOfKind kind) m x → n ≡ m }
    ensures next { (ends : N → List N) → (kind : N → Bool) → (n : ℕ) → (x : N)
        → IsDistance (IsEdge ends) (IsOfKind kind) (suc n) x
        → (y : N) × BeginsFewest (IsEdge ends) (IsOfKind kind) n x y }
    ensures no_nearer { (ends : N → List N) → (kind : N → Bool) → (n m : ℕ) → (x y : N)
        → IsEdge ends x y → IsDistance (IsEdge ends) (IsOfKind kind) n x → Leads (IsEdge ends) (IsOfKind kind) m y
        → n ≤ suc m }
{}

/// A law: the distances over a graph are one list. Just the marked nodes have the distance 0, from a node at a distance
/// above 0 an edge leads to one at the distance below it, no edge leads nearer, and where an edge leads to a node with
/// a distance, its start has one.
pub fn distances_along_edges()
    ensures once { (graph : List (List ℕ)) → (marked : List Bool) → (a b : List (Option ℕ))
        → AreDistances graph marked a → AreDistances graph marked b → a ≡ b }
    ensures zero { (graph : List (List ℕ)) → (marked : List Bool) → (distances : List (Option ℕ))
        → AreDistances graph marked distances → length marked ≡ length graph → (x : ℕ)
        → slice_get distances x ≡ Some (Some 0) ↔ IsMarked marked x }
    ensures next { (graph : List (List ℕ)) → (marked : List Bool) → (distances : List (Option ℕ))
        → AreDistances graph marked distances → IsWithin graph → (x n : ℕ)
        → slice_get distances x ≡ Some (Some (suc n))
        → (y : ℕ) × HasEdge graph x y × (slice_get distances y ≡ Some (Some n)) }
    ensures no_nearer { (graph : List (List ℕ)) → (marked : List Bool) → (distances : List (Option ℕ))
        → AreDistances graph marked distances → (x y m n : ℕ) → HasEdge graph x y
        → slice_get distances x ≡ Some (Some n) → slice_get distances y ≡ Some (Some m) → n ≤ suc m }
    ensures before { (graph : List (List ℕ)) → (marked : List Bool) → (distances : List (Option ℕ))
        → AreDistances graph marked distances → (x y m : ℕ) → HasEdge graph x y
        → slice_get distances y ≡ Some (Some m) → (n : ℕ) × (slice_get distances x ≡ Some (Some n)) }
{}

/// A law: in rank order the end of each edge comes before its start or is together with it, what is between two nodes
/// that are together is together with them, and a kind of nodes that holds the ends of its edges has one such list.
pub fn rank_order_is_one<N>()
    ensures ends { (cmp : N → N → Ordering) → IsExactOrder cmp → (ends : N → List N) → (kind : N → Bool)
        → ((x y : N) → IsOfKind kind x → IsEdge ends x y → IsOfKind kind y) → (nodes : List N)
        → IsInRankOrder cmp (IsEdge ends) (IsOfKind kind) nodes → EndsStandBefore (IsEdge ends) nodes }
    ensures together { (cmp : N → N → Ordering) → IsExactOrder cmp → (ends : N → List N) → (kind : N → Bool)
        → (nodes : List N)
        → IsInRankOrder cmp (IsEdge ends) (IsOfKind kind) nodes → TogetherStandTogether (IsEdge ends) nodes }
    ensures once { (cmp : N → N → Ordering) → IsExactOrder cmp → (ends : N → List N) → (kind : N → Bool)
        → (a b : List N)
        → IsInRankOrder cmp (IsEdge ends) (IsOfKind kind) a → IsInRankOrder cmp (IsEdge ends) (IsOfKind kind) b
        → a ≡ b }
{}
