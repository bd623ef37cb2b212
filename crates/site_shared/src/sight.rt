//! How far a desk, a receipt or a window has seen the list of publishes.

ghost use Rattle.std.specs.Prelude.{◌≡◌, ◌<◌, ◌⊎◌, ◌^◌, [], ◌∷◌, ◌++◌, length, IfSome, None, MatchBool, true};
ghost use mathlib.Core.List.{IsPrefix};
ghost use Rattle.site_shared.specs.Law.{head_of};

use crate::law::{Add, Law, Member, Nothing};
use logbook::{Offer, Plain, Seen, Start, Word};

/// The word that holds how many publishes there are. Its desk alone steps it.
pub type Head = Word<Member, u64, Law>;

/// A prefix of the list of publishes, with its length.
#[derive(Drop)]
pub struct Sight {
    pub seen: Seen<Member, u64, Law>,
    pub count: u64,
    ghost counted: { count ≡ length seen.log },
}

/// A new list of publishes, which is empty, with the word that counts it.
pub struct Opened {
    pub head: Head,
    pub sight: Sight,
    pub ghost empty: { sight.seen.log ≡ [] },
    pub ghost named: { head ≡ head_of sight.seen.book },
}

impl Opened {
    /// A list of publishes that has none yet, and the word that counts them.
    pub fn new() -> Opened {
        let (seen, mut first, _second) = Seen::open(Start::alone(), 0, 0);
        Opened {
            head: Word::tracked(0, &mut first),
            sight: Sight { seen, count: 0 },
        }
    }
}

impl Sight {
    /// A copy.
    pub fn again(&self) -> Sight
        ensures { result ≡ self.now }
    {
        Sight {
            seen: self.seen.again(),
            count: self.count,
        }
    }

    /// Whether this one has seen everything that another one of its list has. One of the two is a prefix of the other.
    pub fn covers(&self, other: &Sight) -> bool
        requires { other.now.seen.book ≡ self.now.seen.book }
        ensures one { MatchBool result (IsPrefix other.now.seen.log self.now.seen.log)
            (IsPrefix self.now.seen.log other.now.seen.log) }
        ensures all { IsPrefix other.now.seen.log self.now.seen.log → result ≡ true }
    {
        let mut both = self.seen.again();
        both.learn(&other.seen);
        other.count <= self.count
    }

    /// The longer of two sights of one list, which the other begins.
    pub fn longer(&self, other: &Sight) -> Sight
        requires { other.now.seen.book ≡ self.now.seen.book }
        ensures one { (result ≡ self.now) ⊎ (result ≡ other.now) }
        ensures this { IsPrefix self.now.seen.log result.seen.log }
        ensures that { IsPrefix other.now.seen.log result.seen.log }
    {
        if self.covers(other) {
            self.again()
        } else {
            other.again()
        }
    }

    /// Adds a publish to all that was seen: what the value asks for. None where the list has another one there, which
    /// no one but its desk adds.
    pub fn with<X, M: Plain<X, Member, u64>>(&self, head: &Head, about: &X) -> Option<Sight>
        requires head { head.now ≡ head_of self.now.seen.book }
        requires plain { M.state about.now ≡ None }
        ensures { IfSome result (λ sight. (sight.seen.log ≡ self.now.seen.log ++ M.ask about.now ∷ [])
            × (sight.seen.book ≡ self.now.seen.book)) }
    {
        if self.count == u64::MAX {
            return None;
        }
        let mut seen = self.seen.again();
        let mut offer: Offer<Member, u64, Law, Nothing> = seen.plain::<Nothing, X, M>(about);
        let mut pen = seen.no_pen();
        let count = self.count;
        let found = head.compare_exchange::<Add, Nothing>(
            count,
            count + 1,
            &mut seen,
            &mut offer,
            &mut pen,
        );
        if found != count {
            return None;
        }
        Some(Sight {
            seen,
            count: count + 1,
        })
    }
}
