//! A draft that was checked.

ghost use Rattle.std.specs.Prelude.{map, string_bytes, ◌≡◌, ◌↔◌, IsTrue, IfOk, IfErr, OnOk, IfSome, IfNone, refl};
ghost use Rattle.std.specs.Char.{to_ascii_lowercase};
ghost use Rattle.std.specs.Ordering.{is_eq, eq_by_cmp, as_partial_cmp};
ghost use Rattle.std.specs.Cmp.{partial_equiv_from_equiv, partial_order_from_agreeing_total};
ghost use Rattle.std.proofs.lemmas.Cmp.{eq_by_cmp_equiv};
ghost use Rattle.review_ops.specs.Deed.{deed_cmp, change_of, kept_deed};
ghost use Rattle.review_ops.specs.Order.{deeds_exact};
ghost use Rattle.review_ops.specs.Good.{IsGood, IsFaultless, FitsFields};
ghost use Rattle.review_ops.specs.Fault.{HasFault, IsFirstBodyFault};
ghost use Rattle.review_ops.specs.Draft.{deed_of};

use super::draft::Draft;
use super::fault::BodyFault;
use super::word::{is_label, is_voter};
use lattice_core::NoMemory;
use std::alloc::{Allocator, Global};
use std::cmp::Ordering;
use std::marker::Model;

/// The most bytes of a commit message.
const MESSAGE_LIMIT: usize = 65536;

/// A checked draft: what an operation does to a change. Its label is in lower case. Bodies are ordered as drafts are.
#[derive(Debug, Drop)]
pub struct Body<A: Allocator + Copy = Global> {
    draft: Draft<A>,
}

impl<A: Allocator + Copy> Model for Body<A> {
    ghost use Rattle.review_ops.specs.Deed.{Deed};
    ghost use Rattle.review_ops.specs.Good.{IsGood, FitsFields};
    ghost use Rattle.review_ops.specs.Draft.{deed_of};

    ghost Value = { Deed };

    ghost view = { λ body. deed_of body.draft };

    ghost invariant = { λ body. IsGood (deed_of body.draft) };
}

impl<A: Allocator + Copy> Body<A> {
    /// The body of a draft, with its label in lower case, or the fault of the least number that the draft has: 1
    /// `BadChange`, a change of 0; 2 `BadSet`, a patch set of 0; 3 `BadLabel`, a label that isn't 1 to 64 ASCII
    /// letters, digits and `-`; 4 `BadVoter`, a voter that isn't 1 to 64 bytes from 0x21 to 0x7E; 5 `LongMessage`, a
    /// message of more than 65,536 bytes; 7 `BadParent`, a parent of 0. A refused draft is dropped. It takes no memory,
    /// and costs O(n) for n bytes of the label and the voter.
    pub fn checked(draft: Draft<A>) -> Result<Body<A>, BodyFault>
        ensures kept { IfOk result (λ body. body ≡ kept_deed (deed_of draft)) }
        ensures good { IfOk result IsGood }
        ensures accepted { OnOk result (IsFaultless (deed_of draft)) }
        ensures none { OnOk result ((fault : _) → ¬ HasFault fault (deed_of draft)) }
        ensures first { IfErr result (λ fault. IsFirstBodyFault fault (deed_of draft)) }
    {
        if let Some(fault) = first_fault(&draft) {
            return Err(fault);
        }
        Ok(Body { draft: kept(draft) })
    }

    /// The fields.
    pub fn draft(&self) -> &Draft<A>
        ensures value { deed_of result.now ≡ self.now }
        ensures good { IsGood self.now }
    {
        &self.draft
    }

    /// The number of the change that the body is about, from 1 on.
    pub fn change(&self) -> u32
        ensures value { result ≡ change_of self.now }
        ensures good { IsGood self.now }
    {
        self.draft.change()
    }

    /// The fields, by value.
    pub fn into_draft(self) -> Draft<A>
        ensures value { deed_of result ≡ self }
        ensures good { IsGood self }
    {
        let Body { draft } = self;
        draft
    }

    /// An equal body, with texts of its own on the same allocator. It costs O(n) for n bytes of its texts.
    pub fn copy(&self) -> Result<Body<A>, NoMemory>
        ensures { IfOk result (λ copied. copied ≡ self.now) }
    {
        Ok(Body {
            draft: self.draft.copy()?,
        })
    }
}

/// The first of a draft's faults, if it has any.
fn first_fault<A: Allocator + Copy>(draft: &Draft<A>) -> Option<BodyFault>
    ensures first { IfSome result (λ fault. IsFirstBodyFault fault (deed_of draft.now)) }
    ensures none { IfNone result (IsFaultless (deed_of draft.now)) }
{
    if draft.change() == 0 {
        return Some(BodyFault::BadChange);
    }
    if draft.set() == Some(0) {
        return Some(BodyFault::BadSet);
    }
    if draft.label().is_some_and(|label| !is_label(label)) {
        return Some(BodyFault::BadLabel);
    }
    if draft.voter().is_some_and(|voter| !is_voter(voter)) {
        return Some(BodyFault::BadVoter);
    }
    if draft
        .message()
        .is_some_and(|message| message.len() > MESSAGE_LIMIT)
    {
        return Some(BodyFault::LongMessage);
    }
    if draft.parent() == Some(0) {
        return Some(BodyFault::BadParent);
    }
    None
}

/// The draft as it is kept: with its label in lower case.
fn kept<A: Allocator + Copy>(draft: Draft<A>) -> Draft<A>
    ensures deed { deed_of result ≡ kept_deed (deed_of draft) }
    ensures fits { FitsFields (deed_of draft) }
{
    match draft {
        Draft::PatchSet {
            change,
            set,
            message,
            parent,
        } => {
            let _text = message.as_str();
            Draft::PatchSet {
                change,
                set,
                message,
                parent,
            }
        }
        Draft::Vote {
            change,
            set,
            label,
            voter,
            value,
        } => Draft::Vote {
            change,
            set,
            label: in_lower_case(label),
            voter,
            value,
        },
        Draft::Withdraw {
            change,
            set,
            label,
            voter,
        } => Draft::Withdraw {
            change,
            set,
            label: in_lower_case(label),
            voter,
        },
        Draft::Abandon { change } => Draft::Abandon { change },
        Draft::Restore { change } => Draft::Restore { change },
        Draft::Merged { change } => Draft::Merged { change },
    }
}

/// A label with its letters in lower case, in place.
fn in_lower_case<A: Allocator>(mut label: String<A>) -> String<A>
    ensures { string_bytes result ≡ map to_ascii_lowercase (string_bytes label) }
{
    label.make_ascii_lowercase();
    label
}

impl<A: Allocator + Copy> Ord for Body<A> {
    ghost cmp = { deed_cmp };

    ghost total = { deeds_exact.total };

    ghost matches_partial_cmp = { λ a b. refl };

    ghost matches_eq = { λ a b. refl };

    fn cmp(&self, other: &Body<A>) -> Ordering {
        self.draft.cmp(&other.draft)
    }
}

impl<A: Allocator + Copy> PartialOrd for Body<A> {
    ghost partial_cmp = { as_partial_cmp deed_cmp };

    ghost laws = { partial_order_from_agreeing_total deed_cmp deeds_exact.total (λ a b. refl) (λ a b. refl) };

    fn partial_cmp(&self, other: &Body<A>) -> Option<Ordering> {
        Some(self.cmp(other))
    }
}

impl<A: Allocator + Copy> PartialEq for Body<A> {
    ghost eq = { eq_by_cmp deed_cmp };

    ghost laws = { partial_equiv_from_equiv (eq_by_cmp_equiv deeds_exact.total) };

    fn eq(&self, other: &Body<A>) -> bool {
        self.cmp(other).is_eq()
    }
}

impl<A: Allocator + Copy> Eq for Body<A> {
    ghost laws = { eq_by_cmp_equiv deeds_exact.total };
}
