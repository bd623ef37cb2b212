//! Reads the text of an operation or a body that is as `write_op` and `write_body` write it, in one pass.

ghost use Rattle.std.specs.Prelude.{◌≡◌, ◌<◌, ◌^◌, ◌++◌, ◌↔◌, IfSome, IsTrue, codes, string_bytes};
ghost use Rattle.review_ops.specs.Draft.{deed_of};
ghost use Rattle.op_text.specs.Canonical.{FitsText, change_front, labelled_front, place_text, seq_of};
ghost use Rattle.op_text.specs.Canonical.{set_text, stamp_text, written_text};

use super::parts::{
    after, integer, number, number16, number32, optional, optional32, text, unquoted,
};
use review_ops::{Draft, Stamp};
use std::alloc::Global;

/// What comes before the place of an operation in its run.
const SEQ: &[u8] = b",\"seq\":";

/// The stamp, if there is one, and the draft of a text that is as it is written. No answer says nothing of the text:
/// another spelling gets none, and neither does a text for which memory runs out. It costs O(n) for n bytes.
pub fn canonical(alloc: Global, bytes: &[u8]) -> Option<(Option<Stamp>, Draft)>
    ensures { IfSome result (λ (stamp, draft). bytes.now ≡ written_text stamp (deed_of draft)) }
{
    let (change, rest) = number32(bytes, b"{\"change\":")?;
    if let Some(rest) = after(rest, b",\"label\":") {
        return labelled(alloc, change, rest);
    }
    if let Some(rest) = after(rest, b",\"message\":") {
        return patch_set(alloc, change, rest);
    }
    step(change, after(rest, b",\"op\":\"")?)
}

/// A vote or a withdrawal, from its label on.
fn labelled(alloc: Global, change: u32, bytes: &[u8]) -> Option<(Option<Stamp>, Draft)>
    ensures { IfSome result (λ (stamp, draft).
        change_front change (codes ",\"label\":" ++ bytes.now) ≡ written_text stamp (deed_of draft)) }
{
    let (label, rest) = unquoted(alloc, bytes)?;
    if let Some(rest) = after(rest, b",\"op\":\"vote\"") {
        return vote(alloc, change, label, rest);
    }
    withdrawal(alloc, change, label, after(rest, b",\"op\":\"withdraw\"")?)
}

/// A patch set, from its message on.
fn patch_set(alloc: Global, change: u32, bytes: &[u8]) -> Option<(Option<Stamp>, Draft)>
    ensures { IfSome result (λ (stamp, draft).
        change_front change (codes ",\"message\":" ++ bytes.now) ≡ written_text stamp (deed_of draft)) }
{
    let (message, rest) = unquoted(alloc, bytes)?;
    let rest = after(rest, b",\"op\":\"patchset\"")?;
    let (parent, rest) = optional32(rest, b",\"parent\":")?;
    let Some((stamp, set, rest)) = stamped_set(rest) else {
        return None;
    };
    if !ends(rest) {
        return None;
    }
    let draft = Draft::PatchSet {
        change,
        set,
        message,
        parent,
    };
    Some((stamp, draft))
}

/// A vote, from behind its kind on.
fn vote(alloc: Global, change: u32, label: String, bytes: &[u8]) -> Option<(Option<Stamp>, Draft)>
    ensures { IfSome result (λ (stamp, draft).
        labelled_front change (string_bytes label) (codes "vote\"" ++ bytes.now)
        ≡ written_text stamp (deed_of draft)) }
{
    let Some((stamp, set, rest)) = stamped_set(bytes) else {
        return None;
    };
    let (value, rest) = integer(rest, b",\"value\":")?;
    let (voter, rest) = text(alloc, rest, b",\"voter\":")?;
    if !ends(rest) {
        return None;
    }
    let draft = Draft::Vote {
        change,
        set,
        label,
        voter,
        value,
    };
    Some((stamp, draft))
}

/// A withdrawal, from behind its kind on.
fn withdrawal(
    alloc: Global,
    change: u32,
    label: String,
    bytes: &[u8],
) -> Option<(Option<Stamp>, Draft)>
    ensures { IfSome result (λ (stamp, draft).
        labelled_front change (string_bytes label) (codes "withdraw\"" ++ bytes.now)
        ≡ written_text stamp (deed_of draft)) }
{
    let Some((stamp, set, rest)) = stamped_set(bytes) else {
        return None;
    };
    let (voter, rest) = text(alloc, rest, b",\"voter\":")?;
    if !ends(rest) {
        return None;
    }
    let draft = Draft::Withdraw {
        change,
        set,
        label,
        voter,
    };
    Some((stamp, draft))
}

/// An abandon, a restore or a merge, from its kind on.
fn step(change: u32, bytes: &[u8]) -> Option<(Option<Stamp>, Draft)>
    ensures { IfSome result (λ (stamp, draft).
        change_front change (codes ",\"op\":\"" ++ bytes.now) ≡ written_text stamp (deed_of draft)) }
{
    if let Some(rest) = after(bytes, b"merged\"") {
        return Some((last(rest)?, Draft::Merged { change }));
    }
    if let Some(rest) = after(bytes, b"abandon\"") {
        return Some((last(rest)?, Draft::Abandon { change }));
    }
    let rest = after(bytes, b"restore\"")?;
    Some((last(rest)?, Draft::Restore { change }))
}

/// The stamp that comes last, if there is one.
fn last(bytes: &[u8]) -> Option<Option<Stamp>>
    ensures { IfSome result (λ stamp. bytes.now ≡ stamp_text stamp (codes "}")) }
{
    let (seq, rest) = optional(bytes, SEQ)?;
    let Some((stamp, rest)) = placed(seq, rest) else {
        return None;
    };
    if !ends(rest) {
        return None;
    }
    Some(stamp)
}

/// Whether the object ends here, and nothing follows.
fn ends(bytes: &[u8]) -> bool
    ensures { IsTrue result ↔ bytes.now ≡ codes "}" }
{
    bytes == b"}".as_slice()
}

/// The stamp, if there is one, with the number of the patch set in it.
fn stamped_set(bytes: &[u8]) -> Option<(Option<Stamp>, u32, &[u8])>
    ensures { IfSome result (λ (stamp, set, rest). bytes.now ≡ set_text stamp set rest.now) }
{
    let (seq, rest) = optional(bytes, SEQ)?;
    let (set, rest) = number32(rest, b",\"set\":")?;
    let Some((stamp, rest)) = placed(seq, rest) else {
        return None;
    };
    Some((stamp, set, rest))
}

/// A law: each field of a draft holds what its type can.
pub fn drafts_fit(draft: &Draft)
    ensures { FitsText (deed_of draft.now) }
{
    let _change = draft.change();
    match draft {
        Draft::PatchSet {
            set,
            message,
            parent,
            ..
        } => {
            let _set = *set;
            let _message = message.as_str();
            parent_fits(parent);
        }
        Draft::Vote {
            set,
            label,
            voter,
            value,
            ..
        } => {
            let _set = *set;
            let _label = label.as_str();
            let _voter = voter.as_str();
            let _value = *value;
        }
        Draft::Withdraw {
            set,
            label,
            voter,
            ..
        } => {
            let _set = *set;
            let _label = label.as_str();
            let _voter = voter.as_str();
        }
        Draft::Abandon { .. } | Draft::Restore { .. } | Draft::Merged { .. } => {}
    }
}

/// A law: a parent that is there is below 2^32.
fn parent_fits(parent: &Option<u32>)
    ensures { IfSome parent.now (λ n. n < 2 ^ 32) }
{
    match parent {
        None => {}
        Some(parent) => {
            let _parent = *parent;
        }
    }
}

/// The stamp whose place in the run was read before, and what follows its time.
fn placed(seq: Option<u64>, bytes: &[u8]) -> Option<(Option<Stamp>, &[u8])>
    ensures place { IfSome result (λ (stamp, rest). bytes.now ≡ place_text stamp rest.now) }
    ensures seq { IfSome result (λ (stamp, rest). seq_of stamp ≡ seq) }
{
    let Some(seq) = seq else {
        return Some((None, bytes));
    };
    let (site, rest) = number16(bytes, b",\"site\":")?;
    let (start, rest) = number32(rest, b",\"start\":")?;
    let (time, rest) = number(rest, b",\"time\":")?;
    let stamp = Stamp::new(time, site, start, seq)?;
    Some((Some(stamp), rest))
}
