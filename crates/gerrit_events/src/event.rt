//! What a line of a known kind claims.

ghost use Rattle.std.specs.Prelude.{◌≡◌, ◌++◌, ◌∷◌, [], IfOk, OnOk, codes, flat_map, map, option_map, replicate};
ghost use Rattle.std.specs.Prelude.{string_bytes};
ghost use Rattle.review_ops.specs.Deed.{withdraw};
ghost use Rattle.review_ops.specs.Draft.{deed_of};
ghost use Rattle.gerrit_events.specs.Claims.{drafts, bad, change_claims, claims_by, closing_claims, first_claims};
ghost use Rattle.gerrit_events.specs.Claims.{listed_claims, lost_footers, lost_parents, mark_claim, older_claims};
ghost use Rattle.gerrit_events.specs.Claims.{opening_claims, patch_claim, patch_claims, patch_marks, query_claims};
ghost use Rattle.gerrit_events.specs.Claims.{is_taken_back, set_claims, state_claim, unvoted, value_under, vote_claim};
ghost use Rattle.gerrit_events.specs.Claims.{vote_claims, vote_of, with_set};
ghost use Rattle.gerrit_events.specs.declared.kind.Kind.TheVariants.{QueryLine};
ghost use Rattle.gerrit_events.specs.Listings.{ballot_of, ballot_shown, ballots_in, mark_ballot};
ghost use Rattle.gerrit_events.specs.Marks.{marks_in};
ghost use Rattle.gerrit_events.specs.Patches.{brought_by, change_in, change_of_commit, parent_in, parents_in, set_in};
ghost use Rattle.gerrit_events.specs.PatchShown.{patch_shown};
ghost use Rattle.gerrit_events.specs.Trees.{data_in};
ghost use Rattle.gerrit_events.specs.Values.{listed_values};
ghost use Rattle.std.specs.List.{cons_option};
ghost use Rattle.serde_json.specs.Find.{get};

use super::claim::Claim;
use super::fault::{EventFault, EventKey};
use super::kind::Kind;
use super::known::Revisions;
use super::line::Line;
use super::listing::{Ballot, Listing};
use super::mark::{Mark, RESERVED_VOTER};
use super::message::kept_message;
use super::patch::{Patch, revision_of};
use super::tree::{member, text};
use super::value::{listed, number_in, text_in, under, user_in, value_in};
use json::Value;
use lattice_core::NoMemory;
use review_ops::Draft;
use std::alloc::Global;

/// A line of a known kind, with the revisions seen before, its change and patch set numbers, and the patch set that it
/// shows.
#[derive(Clone, Copy)]
pub struct Event<'k, 'v, 'a> {
    alloc: Global,
    known: &'k Revisions,
    line: Line<'v, 'a>,
    change: Option<u32>,
    set: Option<u32>,
    brought: Option<Patch<'a>>,
    ghost change_is: { change ≡ change_in line.kind (data_in line.value.now) },
    ghost set_is: { set ≡ set_in line.kind (data_in line.value.now) },
    ghost brought_is: { option_map patch_shown brought ≡ brought_by known.now line.kind (data_in line.value.now) },
}

impl<'k, 'v, 'a> Event<'k, 'v, 'a> {
    /// Each attribute is looked up once.
    pub fn new(
        alloc: Global,
        known: &'k Revisions,
        line: Line<'v, 'a>,
    ) -> Result<Event<'k, 'v, 'a>, NoMemory>
        ensures known { IfOk result (λ event. event.known.now ≡ known.entry.now) }
        ensures line { IfOk result (λ event. event.line ≡ line.entry) }
    {
        let change_found = line.change_part();
        let set_found = line.set_part();
        let change = number_in(under("number", change_found));
        let set = number_in(under("number", set_found));
        let patch = line.patch(change, set, change_found, set_found);
        let brought = line.brought(alloc, known, patch)?;
        Ok(Event {
            alloc,
            known,
            line,
            change,
            set,
            brought,
        })
    }

    /// What the line claims, in order. It costs O(n) for n bytes of the line, and a look-up for each parent.
    pub fn claims(&self) -> Result<Vec<Claim>, NoMemory>
        ensures { IfOk result (λ claims. claims.items
            ≡ claims_by self.now.known.now self.now.line.kind (data_in self.now.line.value.now)) }
    {
        let mut claims = Vec::new(self.alloc);
        self.add_claims(&mut claims)?;
        Ok(claims)
    }

    /// The patch set that the line brings.
    pub fn brought(&self) -> Option<Patch<'a>>
        ensures { option_map patch_shown result
            ≡ brought_by self.now.known.now self.now.line.kind (data_in self.now.line.value.now) }
    {
        self.brought
    }

    /// The change of a parent in this project, where it is known.
    fn parent(&self, project: &str, parent: &Value<'_>) -> Result<Option<u32>, NoMemory>
        ensures { IfOk result (λ change. change
            ≡ parent_in self.now.known.now project.now self.now.line.kind (data_in parent.now)) }
    {
        match self.line.kind {
            Kind::QueryLine => Ok(number_in(member(parent, "number"))),
            _ => self.change_of_commit(project, text(parent)),
        }
    }

    /// The change of a commit in this project, where it is known.
    fn change_of_commit(&self, project: &str, commit: Option<&str>) -> Result<Option<u32>, NoMemory>
        ensures { IfOk result (λ change. change
            ≡ change_of_commit self.now.known.now project.now (option_map (λ text. text.now) commit.entry)) }
    {
        let Some(commit) = commit else {
            return Ok(None);
        };
        let revision = revision_of(self.alloc, project, commit)?;
        match self.known.place_of(revision.as_str()) {
            Some((change, _set)) => Ok(Some(change)),
            None => Ok(None),
        }
    }

    /// The changes of the parents that are known.
    fn parents(&self) -> Result<Vec<u32>, NoMemory>
        ensures { IfOk result (λ parents. parents.items
            ≡ parents_in self.now.known.now self.now.line.kind (data_in self.now.line.value.now)) }
    {
        let mut parents = Vec::new(self.alloc);
        let project = self.line.project();
        let values = self.line.parents_part();
        for value in values {
            let Some(change) = self.parent(project, value)? else {
                continue;
            };
            parents.push(change)?;
        }
        Ok(parents)
    }

    /// How many parents are lost, where these are known.
    fn lost_parents(&self, parents: &[u32]) -> usize
        requires { parents.now ≡ parents_in self.now.known.now self.now.line.kind (data_in self.now.line.value.now) }
        ensures { result ≡ lost_parents self.now.known.now self.now.line.kind (data_in self.now.line.value.now) }
    {
        match self.line.kind {
            Kind::QueryLine => self
                .line
                .parents_part()
                .len()
                .saturating_sub(parents.len().min(1)),
            _ => parents.len().saturating_sub(1),
        }
    }
}

impl<'k, 'v, 'a> Event<'k, 'v, 'a> {
    /// Adds what the event claims.
    fn add_claims(&self, claims: &mut Vec<Claim>) -> Result<(), NoMemory>
        ensures { OnOk result (claims.new.items ≡ claims.old.items
            ++ claims_by self.now.known.now self.now.line.kind (data_in self.now.line.value.now)) }
    {
        match self.line.kind {
            Kind::DroppedOutput => add(claims, Claim::refuses(EventFault::Dropped)),
            Kind::QueryStats | Kind::QueryError => Ok(()),
            Kind::OtherEvent => self.add_first(claims),
            _ => match self.change {
                None => add(claims, Claim::bad(self.line.kind.change_key())),
                Some(change) => self.add_change(claims, change),
            },
        }
    }

    /// What the line claims of its change.
    fn add_change(&self, claims: &mut Vec<Claim>, change: u32) -> Result<(), NoMemory>
        ensures { OnOk result (claims.new.items ≡ claims.old.items
            ++ change_claims self.now.known.now self.now.line.kind (data_in self.now.line.value.now) change) }
    {
        let draft = match self.line.kind {
            Kind::ChangeAbandoned | Kind::ChangeDeleted => Draft::Abandon { change },
            Kind::ChangeRestored => Draft::Restore { change },
            Kind::ChangeMerged => Draft::Merged { change },
            Kind::QueryLine => return self.add_row(claims, change),
            _ => return self.add_set(claims, change),
        };
        self.add_first(claims)?;
        add(claims, Claim::drafts(draft))
    }

    /// What a row claims of its change. A claim that it is closed comes first.
    fn add_row(&self, claims: &mut Vec<Claim>, change: u32) -> Result<(), NoMemory>
        requires { self.now.line.kind ≡ Kind.QueryLine }
        ensures { OnOk result (claims.new.items ≡ claims.old.items
            ++ change_claims self.now.known.now QueryLine (data_in self.now.line.value.now) change) }
    {
        add_closing(claims, change, text_in(member(self.line.value, "status")))?;
        self.add_set(claims, change)
    }

    /// What the line claims of its patch set.
    fn add_set(&self, claims: &mut Vec<Claim>, change: u32) -> Result<(), NoMemory>
        ensures { OnOk result (claims.new.items ≡ claims.old.items
            ++ with_set self.now.known.now self.now.line.kind (data_in self.now.line.value.now) change
            (set_in self.now.line.kind (data_in self.now.line.value.now))) }
    {
        let Some(set) = self.set else {
            return add(claims, Claim::bad(self.line.kind.set_key()));
        };
        self.add_first(claims)?;
        self.add_votes_of_set(claims, change, set)
    }

    /// The patch set that the line brings.
    fn add_first(&self, claims: &mut Vec<Claim>) -> Result<(), NoMemory>
        ensures { OnOk result (claims.new.items ≡ claims.old.items
            ++ first_claims self.now.known.now self.now.line.kind (data_in self.now.line.value.now)) }
    {
        let Some(patch) = self.brought else {
            return match self.line.kind {
                Kind::PatchSetCreated | Kind::QueryLine => {
                    add(claims, Claim::bad(EventKey::CommitMessage))
                }
                _ => Ok(()),
            };
        };
        self.add_patch(claims, &patch)
    }

    /// A patch set with its parent.
    fn add_patch(&self, claims: &mut Vec<Claim>, patch: &Patch<'a>) -> Result<(), NoMemory>
        ensures { OnOk result (claims.new.items ≡ claims.old.items
            ++ patch_claims self.now.known.now self.now.line.kind (data_in self.now.line.value.now) (patch_shown patch.now)) }
    {
        let parents = self.parents()?;
        let parent = parents.first().copied();
        let kept = kept_message(self.alloc, patch.message)?;
        let draft = Draft::PatchSet {
            change: patch.change,
            set: patch.set,
            message: kept.text,
            parent,
        };
        add(claims, self.patch_claim(draft))?;
        add_lost_footers(claims, kept.is_cut)?;
        let lost = self.lost_parents(parents.as_slice());
        add_bad(claims, self.line.parents_key(), lost)?;
        self.add_patch_marks(claims, patch)
    }

    /// What is claimed of a patch set.
    fn patch_claim(&self, draft: Draft) -> Claim
        ensures { result ≡ patch_claim self.now.line.kind (deed_of draft) }
    {
        match self.line.kind {
            Kind::QueryLine => Claim::drafts(draft),
            _ => Claim::shows(draft),
        }
    }

    /// The marks of a patch set that an event brings.
    fn add_patch_marks(&self, claims: &mut Vec<Claim>, patch: &Patch<'a>) -> Result<(), NoMemory>
        ensures { OnOk result (claims.new.items ≡ claims.old.items
            ++ patch_marks self.now.line.kind (data_in self.now.line.value.now) (patch_shown patch.now)) }
    {
        match self.line.kind {
            Kind::QueryLine => Ok(()),
            _ => self.add_marks(claims, patch.change, patch.set),
        }
    }

    /// What the reserved voter votes on a patch set.
    fn add_marks(&self, claims: &mut Vec<Claim>, change: u32, set: u32) -> Result<(), NoMemory>
        ensures { OnOk result (claims.new.items ≡ claims.old.items
            ++ map (mark_claim change set) (marks_in self.now.line.kind (data_in self.now.line.value.now))) }
    {
        let marks = self.line.marks(self.alloc)?;
        for mark in marks {
            claims.push(mark_claim(self.alloc, change, set, mark)?)?;
        }
        Ok(())
    }

    /// What the reserved voter votes on a patch set, or takes back, now that this is so or not.
    fn add_state(
        &self,
        claims: &mut Vec<Claim>,
        change: u32,
        set: u32,
        mark: Mark,
        is_so: bool,
    ) -> Result<(), NoMemory>
        ensures { OnOk result (claims.new.items ≡ claims.old.items ++ state_claim change set mark is_so ∷ []) }
    {
        if is_so {
            return add(claims, mark_claim(self.alloc, change, set, mark)?);
        }
        let label = String::from_str(self.alloc, mark.label())?;
        let voter = String::from_str(self.alloc, RESERVED_VOTER)?;
        add(claims, withdrawn(change, set, label, voter))
    }

    /// What the line claims of its patch set beside the patch set.
    fn add_votes_of_set(
        &self,
        claims: &mut Vec<Claim>,
        change: u32,
        set: u32,
    ) -> Result<(), NoMemory>
        ensures { OnOk result (claims.new.items ≡ claims.old.items
            ++ set_claims self.now.line.kind (data_in self.now.line.value.now) change set) }
    {
        match self.line.kind {
            Kind::PatchSetCreated => Ok(()),
            Kind::QueryLine => self.add_query(claims, change, set),
            Kind::WipStateChanged => {
                self.add_state(
                    claims,
                    change,
                    set,
                    Mark::WorkInProgress,
                    self.line.is_wip(),
                )
            },
            Kind::PrivateStateChanged => {
                self.add_state(claims, change, set, Mark::Private, self.line.is_private())
            }
            _ => self.add_votes(claims, change, set, self.line.approvals_part()),
        }
    }

    /// The votes of approvals.
    fn add_votes(
        &self,
        claims: &mut Vec<Claim>,
        change: u32,
        set: u32,
        approvals: Option<&'v Value<'a>>,
    ) -> Result<(), NoMemory>
        ensures { OnOk result (claims.new.items ≡ claims.old.items
            ++ vote_claims self.now.line.kind (data_in self.now.line.value.now) change set
            (option_map (λ value. data_in value.now) approvals.entry)) }
    {
        let values = listed(approvals);
        for approval in values {
            claims.push(self.vote(change, set, approval)?)?;
        }
        Ok(())
    }

    /// The vote of an approval.
    fn vote(&self, change: u32, set: u32, approval: &'v Value<'a>) -> Result<Claim, NoMemory>
        ensures { IfOk result (λ claim. claim
            ≡ vote_claim self.now.line.kind (data_in self.now.line.value.now) change set (data_in approval.now)) }
    {
        let Some(label) = text_in(member(approval, "type")) else {
            return Ok(Claim::bad(EventKey::TypeName));
        };
        let Some(voter) = user_in(self.alloc, self.line.account_part(approval))? else {
            return Ok(Claim::bad(self.line.kind.account_key()));
        };
        if voter.as_str() == RESERVED_VOTER {
            return Ok(Claim::bad(EventKey::Username));
        }
        let is_taken_back = self.is_taken_back(approval);
        let value = member(approval, "value");
        vote_of(self.alloc, change, set, label, voter, is_taken_back, value)
    }

    /// Whether an approval without a score takes a vote back: in a row each does, in an event those with an old value.
    fn is_taken_back(&self, approval: &Value<'a>) -> bool
        ensures { result ≡ is_taken_back self.now.line.kind (data_in approval.now) }
    {
        match self.line.kind {
            Kind::QueryLine => true,
            _ => member(approval, "oldValue").is_some(),
        }
    }

    /// What a row of a query claims of its patch sets. A claim that the change is open comes last.
    fn add_query(&self, claims: &mut Vec<Claim>, change: u32, set: u32) -> Result<(), NoMemory>
        requires { self.now.line.kind ≡ Kind.QueryLine }
        ensures { OnOk result (claims.new.items ≡ claims.old.items
            ++ query_claims (data_in self.now.line.value.now) change set) }
    {
        let marks = self.mark_ballots()?;
        self.add_listed(claims, change, set, self.line.approvals_part(), marks)?;
        self.add_marks(claims, change, set)?;
        self.add_older_sets(claims, change, set)?;
        add_opening(claims, change, text_in(member(self.line.value, "status")))
    }

    /// What a row claims of the patch sets but the current one.
    fn add_older_sets(&self, claims: &mut Vec<Claim>, change: u32, set: u32) -> Result<(), NoMemory>
        requires { self.now.line.kind ≡ Kind.QueryLine }
        ensures { OnOk result (claims.new.items ≡ claims.old.items
            ++ flat_map (older_claims (data_in self.now.line.value.now) change set)
            (listed_values (get (codes "patchSets") (data_in self.now.line.value.now)))) }
    {
        let values = listed(member(self.line.value, "patchSets"));
        for older in values {
            self.add_older(claims, change, set, older)?;
        }
        Ok(())
    }

    /// The votes of a patch set that isn't the current one.
    fn add_older(
        &self,
        claims: &mut Vec<Claim>,
        change: u32,
        current: u32,
        older: &'v Value<'a>,
    ) -> Result<(), NoMemory>
        requires { self.now.line.kind ≡ Kind.QueryLine }
        ensures { OnOk result (claims.new.items ≡ claims.old.items
            ++ older_claims (data_in self.now.line.value.now) change current (data_in older.now)) }
    {
        let Some(set) = number_in(member(older, "number")) else {
            return add(claims, Claim::bad(EventKey::PatchSets));
        };
        if set == current {
            return Ok(());
        }
        let marks = Vec::new(self.alloc);
        self.add_listed(claims, change, set, member(older, "approvals"), marks)
    }

    /// All votes of a patch set, and then each of them, with these ballots beside those of the approvals.
    fn add_listed(
        &self,
        claims: &mut Vec<Claim>,
        change: u32,
        set: u32,
        approvals: Option<&'v Value<'a>>,
        marks: Vec<Ballot>,
    ) -> Result<(), NoMemory>
        requires { self.now.line.kind ≡ Kind.QueryLine }
        ensures { OnOk result (claims.new.items ≡ claims.old.items
            ++ listed_claims change set (data_in self.now.line.value.now)
            (option_map (λ value. data_in value.now) approvals.entry) (map ballot_shown marks.items)) }
    {
        let mut ballots = self.ballots(approvals)?;
        for mark in marks {
            ballots.push(mark)?;
        }
        add(
            claims,
            Claim::lists(Listing {
                change,
                set,
                ballots,
            }),
        )?;
        self.add_votes(claims, change, set, approvals)
    }

    /// The ballots of approvals, where they have a label and a voter who isn't the reserved one.
    fn ballots(&self, approvals: Option<&'v Value<'a>>) -> Result<Vec<Ballot>, NoMemory>
        ensures { IfOk result (λ ballots. map ballot_shown ballots.items
            ≡ ballots_in (option_map (λ value. data_in value.now) approvals.entry)) }
    {
        let mut ballots = Vec::new(self.alloc);
        let values = listed(approvals);
        for approval in values {
            add_ballot(self.alloc, &mut ballots, approval)?;
        }
        Ok(ballots)
    }

    /// The ballots of the reserved voter.
    fn mark_ballots(&self) -> Result<Vec<Ballot>, NoMemory>
        ensures { IfOk result (λ ballots. map ballot_shown ballots.items
            ≡ map mark_ballot (marks_in self.now.line.kind (data_in self.now.line.value.now))) }
    {
        let mut ballots = Vec::new(self.alloc);
        let marks = self.line.marks(self.alloc)?;
        for mark in marks {
            let voter = String::from_str(self.alloc, RESERVED_VOTER)?;
            ballots.push(ballot(self.alloc, mark.label(), voter)?)?;
        }
        Ok(ballots)
    }
}

/// Adds the ballot of an approval, where it has one.
fn add_ballot(
    alloc: Global,
    ballots: &mut Vec<Ballot>,
    approval: &Value<'_>,
) -> Result<(), NoMemory>
    ensures { OnOk result (map ballot_shown ballots.new.items
        ≡ map ballot_shown ballots.old.items ++ cons_option (ballot_of (data_in approval.now)) []) }
{
    if let Some(ballot) = ballot_of(alloc, approval)? {
        ballots.push(ballot)?;
    }
    Ok(())
}

/// The ballot of an approval, where it has a label and a voter who isn't the reserved one.
fn ballot_of(alloc: Global, approval: &Value<'_>) -> Result<Option<Ballot>, NoMemory>
    ensures { IfOk result (λ found. option_map ballot_shown found ≡ ballot_of (data_in approval.now)) }
{
    let Some(label) = text_in(member(approval, "type")) else {
        return Ok(None);
    };
    let Some(voter) = user_in(alloc, member(approval, "by"))? else {
        return Ok(None);
    };
    if voter.as_str() == RESERVED_VOTER {
        return Ok(None);
    }
    let mut ballot = ballot(alloc, label, voter)?;
    ballot.label.make_ascii_lowercase();
    Ok(Some(ballot))
}

/// The ballot of a voter on a label.
fn ballot(alloc: Global, label: &str, voter: String) -> Result<Ballot, NoMemory>
    ensures { IfOk result (λ ballot. ballot_shown ballot ≡ record { label = label.now; voter = string_bytes voter }) }
{
    Ok(Ballot {
        label: String::from_str(alloc, label)?,
        voter,
    })
}

/// The claim that the reserved voter votes on a label.
fn mark_claim(alloc: Global, change: u32, set: u32, mark: Mark) -> Result<Claim, NoMemory>
    ensures { IfOk result (λ claim. claim ≡ mark_claim change set mark) }
{
    Ok(Claim::drafts(Draft::Vote {
        change,
        set,
        label: String::from_str(alloc, mark.label())?,
        voter: String::from_str(alloc, RESERVED_VOTER)?,
        value: -1,
    }))
}

/// Adds a claim.
fn add(claims: &mut Vec<Claim>, claim: Claim) -> Result<(), NoMemory>
    ensures { OnOk result (claims.new.items ≡ claims.old.items ++ claim ∷ []) }
{
    claims.push(claim)?;
    Ok(())
}

/// Adds that footers of a message are lost, where some are.
fn add_lost_footers(claims: &mut Vec<Claim>, are_lost: bool) -> Result<(), NoMemory>
    ensures { OnOk result (claims.new.items ≡ claims.old.items ++ lost_footers are_lost) }
{
    if are_lost {
        return add(claims, Claim::bad(EventKey::CommitMessage));
    }
    Ok(())
}

/// Adds so many losses because of a key.
fn add_bad(claims: &mut Vec<Claim>, key: EventKey, count: usize) -> Result<(), NoMemory>
    ensures { OnOk result (claims.new.items ≡ claims.old.items ++ replicate count (bad key)) }
{
    for _lost in 0..count {
        claims.push(Claim::bad(key))?;
    }
    Ok(())
}

/// The vote of a voter, by what its value is, if it has one, and by whether one of 0 takes a vote back.
fn vote_of(
    alloc: Global,
    change: u32,
    set: u32,
    label: &str,
    voter: String,
    is_taken_back: bool,
    value: Option<&Value<'_>>,
) -> Result<Claim, NoMemory>
    ensures { IfOk result (λ claim. claim ≡ vote_of change set label.now (string_bytes voter) is_taken_back
        (value_under (option_map (λ value. data_in value.now) value.entry))) }
{
    let label = String::from_str(alloc, label)?;
    let Some(value) = value else {
        return Ok(unvoted(is_taken_back, change, set, label, voter));
    };
    match value_in(Some(value)) {
        None => Ok(Claim::bad(EventKey::Value)),
        Some(0) => Ok(unvoted(is_taken_back, change, set, label, voter)),
        Some(value) => Ok(Claim::drafts(Draft::Vote {
            change,
            set,
            label,
            voter,
            value,
        })),
    }
}

/// The claim that there is no vote: that it was withdrawn, if one was taken back, else that an event shows none.
fn unvoted(is_taken_back: bool, change: u32, set: u32, label: String, voter: String) -> Claim
    ensures { result ≡ unvoted is_taken_back (withdraw change set (string_bytes label) (string_bytes voter)) }
{
    if is_taken_back {
        return withdrawn(change, set, label, voter);
    }
    Claim::shows(Draft::Withdraw {
        change,
        set,
        label,
        voter,
    })
}

/// The claim that a vote was withdrawn.
fn withdrawn(change: u32, set: u32, label: String, voter: String) -> Claim
    ensures { result ≡ drafts (withdraw change set (string_bytes label) (string_bytes voter)) }
{
    Claim::drafts(Draft::Withdraw {
        change,
        set,
        label,
        voter,
    })
}

/// Claims that a change is closed, if the row says so.
fn add_closing(claims: &mut Vec<Claim>, change: u32, status: Option<&str>) -> Result<(), NoMemory>
    ensures { OnOk result (claims.new.items ≡ claims.old.items
        ++ closing_claims change (option_map (λ text. text.now) status.entry)) }
{
    match status {
        Some("ABANDONED") => add(claims, Claim::drafts(Draft::Abandon { change })),
        Some("MERGED") => add(claims, Claim::drafts(Draft::Merged { change })),
        _ => Ok(()),
    }
}

/// Claims that a change is open, if the row says so, or the loss of its status, if the row has none.
fn add_opening(claims: &mut Vec<Claim>, change: u32, status: Option<&str>) -> Result<(), NoMemory>
    ensures { OnOk result (claims.new.items ≡ claims.old.items
        ++ opening_claims change (option_map (λ text. text.now) status.entry)) }
{
    match status {
        None => add(claims, Claim::bad(EventKey::Status)),
        Some("NEW") => add(claims, Claim::drafts(Draft::Restore { change })),
        Some(_) => Ok(()),
    }
}
