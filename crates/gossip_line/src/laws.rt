//! What holds of pulls, over the definitions alone.

ghost use Rattle.std.specs.Prelude.{◌≡◌, ◌≤◌, ◌++◌, ◌∷◌, [], ℕ, List, false, true};
ghost use Rattle.gossip_line.specs.Pull.{PullsWell, Round, ops_in};
ghost use Rattle.gossip_line.specs.Session.{Moment};
ghost use Rattle.gossip_line.specs.declared.pull.Pulled.{Pulled};
ghost use Rattle.replica_core.specs.Journal.{has};
ghost use Rattle.replica_core.specs.JournalLaws.{IsPartOf};
ghost use Rattle.replica_core.specs.Passing.{AreTwins};
ghost use Rattle.review_ops.specs.Operation.{Operation};
ghost use Rattle.site_port.specs.OwnSite.{OwnGives, OwnSinks, OwnState};
ghost use Rattle.site_port.specs.Ports.{lacked, lacks};

/// A law: a plain site whose pull ended well, the last answer having reported that nothing is left, has all that the
/// other site had when it gave that answer, where no two operations of theirs share site, start and sequence number
/// without being one.
pub fn pulls_pass_on_all()
    ensures { (limit most : ℕ) → (before after : Moment OwnState) → (pulled : Pulled)
        → (pull : PullsWell OwnSinks limit most before after pulled)
        → pulled.more ≡ false → (earlier : List Round) → (last : Round) → pull.rounds ≡ earlier ++ last ∷ []
        → (peer later : OwnState) → OwnGives peer (lacks last.front) (lacked (ops_in last.lines) last.more) later
        → ((op : Operation) → has peer.journal op ≡ true → 1 ≤ op.stamp.seq)
        → ((op twin : Operation) → has peer.journal op ≡ true → has after.port.journal twin ≡ true
        → AreTwins op.stamp twin.stamp → op ≡ twin)
        → IsPartOf peer.journal after.port.journal }
{}
