//! Laws of records and findings, as functions without effect: the contract of each function is a law.

ghost use Rattle.std.specs.Prelude.{◌≡◌, ◌≤◌, ◌++◌, ℕ, List, false, length, map};
ghost use Rattle.event_filter.specs.Recorded.{change_at, IsRecorded, LookAlike};
ghost use Rattle.event_filter.specs.Newest.{IsNewest, IsOpenTo};
ghost use Rattle.event_filter.specs.Lowering.{AreAllLowering};
ghost use Rattle.event_filter.specs.Meanwhile.{EachElsewhere, NothingIsAboveBoth, NothingIsRaised};
ghost use Rattle.event_filter.specs.Truth.{AgreesWithAll, AreMet, AreNothingNew, AreTakenIn};
ghost use Rattle.footer_text.specs.Footers.{MessageNeeds};
ghost use Rattle.gerrit_events.specs.declared.finding.Finding.{Finding};
ghost use Rattle.gerrit_events.specs.declared.finding.Finding.TheVariants.{Brings};
ghost use Rattle.gerrit_events.specs.Messages.{has_lost_footers, kept_message};
ghost use Rattle.gerrit_events.specs.Projects.{Choice};
ghost use Rattle.gerrit_events.specs.Reading.{IsLineObject, Reads, ParsedLine};
ghost use Rattle.gerrit_events.specs.Revisions.{Revision};
ghost use Rattle.serde_json.specs.Data.{Members, object};
ghost use Rattle.event_filter.specs.Rows.{IsFedRow, SaysRow};
ghost use Rattle.review_ops.specs.Deed.{Deed};
ghost use Rattle.review_ops.specs.Operation.{Operation};
ghost use Rattle.state_core.specs.State.{State, with_effect};

/// A law: an operation that says what the record says already changes, under whatever stamp, no status, no commit and
/// no score of any change.
pub fn what_is_recorded_changes_no_view()
    ensures { (state : State) → (op : Operation) → IsRecorded state op.deed
        → (number : ℕ) → LookAlike (change_at state number) (change_at (with_effect state op) number) }
{}

/// A law: once an operation is taken in under a stamp above all that were written there, the record says what it says,
/// but for an abandon or a restore of a merged change.
pub fn what_is_taken_in_is_recorded()
    ensures { (state : State) → (op : Operation) → IsNewest state op → IsOpenTo state op.deed
        → IsRecorded (with_effect state op) op.deed }
{}

/// A law: once what was found in a line is met, one finding after the other, and what each brings is taken in under
/// stamps above those before, the record says what the line says: each body of it is recorded, a patch set that it
/// shows is nothing new, and on each patch set that it lists who isn't listed has no score; where two findings speak of
/// the same, the last one counts. What can't be said of a change that the record has as merged is that it is open or
/// abandoned.
pub fn what_is_met_is_what_the_record_says()
    ensures { (state new : State) → (findings : List Finding) → AreMet state findings new
        → AgreesWithAll findings new }
{}

/// A law: findings of which the record says each already bring nothing.
pub fn what_is_nothing_new_brings_nothing()
    ensures { (state new : State) → (findings : List Finding) → AreNothingNew state findings → AreMet state findings new
        → new ≡ state }
{}

/// A law: a row of an answer is the truth on its change. Once it was read, and what was found in it is met, one finding
/// after the other, under stamps above those before, the record says of the change what the row says, in the terms of
/// Gerrit's JSON: the commit of the current patch set, the status (a merged change stays merged), each approval of the
/// current patch set, that nobody else has a score on it, and whether the change is a work in progress, is private or
/// depends on an outdated patch set. This holds whatever was met before these findings, such as the bodies that
/// `lowering_first` puts first.
pub fn what_a_row_says_is_what_the_record_says()
    ensures { (known after : List Revision) → (choice : Choice) → (text : List ℕ) → (parsed : ParsedLine)
        → Reads known choice text parsed after → (members : Members) → IsLineObject text members
        → (change set : ℕ) → IsFedRow choice (object members) change set
        → (before : List Finding) → (state new : State) → AreMet state (before ++ parsed.findings) new
        → SaysRow known (object members) change set new }
{}

/// A law: while the bodies that `lowering_first` puts first are met, one after the other, no score is above what it was
/// before the line, and no change is open that wasn't.
pub fn what_comes_first_raises_nothing()
    ensures { (state mid : State) → (findings : List Finding) → (bodies seen left : List Deed)
        → AreAllLowering state findings bodies → bodies ≡ seen ++ left → AreMet state (map Brings seen) mid
        → NothingIsRaised state mid }
{}

/// A law: while other bodies are taken in after that, no two of them written in one place, no score is above both what
/// it was before the line and what it is after it, and no change is open that is closed before and after.
pub fn nothing_is_above_both()
    ensures { (old before mid new : State) → (seen left : List Deed) → NothingIsRaised old before
        → EachElsewhere (seen ++ left) → AreTakenIn before seen mid → AreTakenIn mid left new
        → NothingIsAboveBoth old mid new }
{}

/// A law: what is kept of a message names no change but those that the message names, whatever the bases; and all of
/// these, unless footers of it are lost, which is reported.
pub fn what_is_kept_of_a_message_names_the_same()
    ensures no_more { (bases : List (List ℕ)) (own : ℕ) (message : List ℕ) (change : ℕ)
        → MessageNeeds bases own (kept_message message) change → MessageNeeds bases own message change }
    ensures all { (bases : List (List ℕ)) (own : ℕ) (message : List ℕ) → has_lost_footers message ≡ false
        → (change : ℕ) → MessageNeeds bases own message change → MessageNeeds bases own (kept_message message) change }
{}

/// A law: what is kept of a message has at most 65,536 bytes, so that no patch set is refused for its message.
pub fn what_is_kept_of_a_message_fits_a_body()
    ensures { (message : List ℕ) → length (kept_message message) ≤ 65536 }
{}
