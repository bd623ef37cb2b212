//! Laws of publishes, as functions without effect: the contract of each function is a law.

ghost use Rattle.std.specs.Prelude.{◌≡◌, ◌<◌, ◌||◌, [], ◌∷◌, ◌++◌, List, length, true};
ghost use Rattle.std.specs.List.{list_any};
ghost use mathlib.Core.List.{IsPrefix};
ghost use Rattle.replica_core.specs.Journal.{arrived, has};
ghost use Rattle.replica_core.specs.JournalLaws.{IsPartOf};
ghost use Rattle.review_ops.specs.Operation.{Operation};
ghost use Rattle.site_shared.specs.Accounts.{Account, flushing, next_stamp, record_of};
ghost use Rattle.site_shared.specs.Publishes.{arrive};

/// A law: a publish is, operation by operation, a step of one site: each comes to the journal as one that is delivered
/// or taken in does. So the journal is, as a set, that of the opening with the operations of each publish.
pub fn publishes_are_steps()
    ensures step { (log : List (List Operation)) (ops : List Operation) (op : Operation) → 0 < length log
        → arrive (log ++ (ops ++ op ∷ []) ∷ []) ≡ arrived (arrive (log ++ ops ∷ [])) op }
    ensures none { (log : List (List Operation)) → 0 < length log → arrive (log ++ [] ∷ []) ≡ arrive log }
    ensures set { (opening : List Operation) (publishes : List (List Operation)) (op : Operation)
        → has (arrive (opening ∷ publishes)) op ≡ (has opening op || list_any (λ ops. has ops op) publishes) }
{}

/// A law: of two moments of a site the later journal begins with the earlier one, in the order of arrival, and has all
/// of its operations.
pub fn later_journals_go_on()
    ensures begins { (before after : List (List Operation)) → IsPrefix before after
        → IsPrefix (arrive before) (arrive after) }
    ensures keeps { (before after : List (List Operation)) → IsPrefix before after
        → IsPartOf (arrive before) (arrive after) }
{}

/// A law: the next stamp of a desk has a time above that of all that was published or held, and a sequence number above
/// that of each one of its site and start; and what a desk publishes is published, all that it held.
pub fn stamps_are_above_all()
    ensures time { (account : Account) (op : Operation) → has (record_of account) op ≡ true
        → op.stamp.time < (next_stamp account).time }
    ensures seq { (account : Account) (op : Operation) → has (record_of account) op ≡ true
        → op.stamp.site ≡ account.site → op.stamp.start ≡ account.start → op.stamp.seq < (next_stamp account).seq }
    ensures stands { (account : Account) → 0 < length account.published
        → IsPartOf account.held (arrive (flushing account).published) }
{}
