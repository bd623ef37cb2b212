//! The list of publishes, which exists only in proofs. At run time threads share one atomic word, its length.

use logbook::{Gain, Plain, Play, Rule};
use replica_core::Replica;
use review_ops::Op;

/// What is published at once. No value of it is made: contracts read it as a list of operations.
pub type Member = [Op; 0];

/// The rule: the word holds the length of the list.
pub struct Law;

impl Rule<Member, u64> for Law {
    ghost use Rattle.std.specs.Prelude.{[]};
    ghost use base.Fml.{ftrue};
    ghost use Rattle.site_shared.specs.Law.{IsCounted};

    ghost holds = { λ cells log. IsCounted cells log };

    ghost first = { [] };

    ghost hinted = { λ n log. Unit {0} };

    ghost shows = { λ log. [] };

    ghost keeps = { λ names log. ftrue };

    ghost moves = { λ ask before after answer. Unit {0} };
}

/// Nobody trades anything.
pub struct Nothing;

impl Gain<Member, u64> for Nothing {
    ghost use base.Fml.{ftrue};

    ghost after = { λ names about answer. ftrue };
}

/// The step that adds a publish.
pub struct Add;

impl Play<Member, u64> for Add {
    ghost use Rattle.site_shared.specs.Law.{AddsEntry};

    ghost then = { AddsEntry };
}

/// A publish of what is held.
pub struct Publishes;

/// What the step asks for: the operations.
impl Plain<Vec<Op>, Member, u64> for Publishes {
    ghost use Rattle.std.specs.Prelude.{None};

    ghost ask = { λ ops. ops.items };

    ghost state = { λ ops. None };
}

/// The publish with which a site is opened.
pub struct Opens;

/// What the step asks for: the journal.
impl Plain<Replica, Member, u64> for Opens {
    ghost use Rattle.std.specs.Prelude.{None};

    ghost ask = { λ journal. journal };

    ghost state = { λ journal. None };
}
