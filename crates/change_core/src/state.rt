//! The state of one change.

ghost use Rattle.std.specs.Prelude.{◌≡◌, ◌↔◌, IsTrue, IfOk, OnOk, OnErr, Some, string_bytes};
ghost use Rattle.std.specs.FinMap as finite;
ghost use Rattle.std.specs.Ordering.{ord_max};
ghost use Rattle.lattice_core.specs.Join.{Covers, option_joined};
ghost use Rattle.lattice_core.specs.JoinMap.{put_joined};
ghost use Rattle.change_core.specs.Slots.{patch_cmp};
ghost use Rattle.change_core.specs.Change.{no_change, effect_of, change_joined, patch_order, vote_order};
ghost use Rattle.change_core.specs.Parts.{patch_of, sets_shown, votes_shown};
ghost use Rattle.std.specs.Option.{option_map};
ghost use Rattle.change_core.specs.Views.{status_of, IsKnownSet, IsCurrent, message_of, parent_of};
ghost use Rattle.change_core.specs.Votes.{AreVotedSets, votes_of, approvals_of};

use super::commit::Commit;
use super::life::{Life, Status};
use super::vote_slot::VoteSlot;
use super::votes::{Approvals, VotedSets, Votes};
use chunk_list::JoinList;
use lattice_core::{Flag, Greatest, Join, Keep, NoMemory, Register};
use review_ops::{Draft, Op, Stamp};
use std::alloc::{Allocator, Global};
use std::cmp::Ordering;
use std::marker::Model;

/// The state of one change: what the operations on it add up to, in whatever order they came. Contracts see a `Change`:
/// whether it is merged, the newest abandon or restore, and the registers of its patch sets and of its votes.
#[derive(Drop)]
pub struct ChangeState<A: Allocator + Copy = Global> {
    merged: Flag,
    life: Greatest<Stamp, Life>,
    sets: JoinList<u32, Register<Stamp, Commit<A>>, A>,
    votes: JoinList<VoteSlot<A>, Register<Stamp, i8>, A>,
}

impl<A: Allocator + Copy> Model for ChangeState<A> {
    ghost use Rattle.change_core.specs.Change.{Change};
    ghost use Rattle.change_core.specs.Codes.{change_code};

    ghost Value = { Change };

    ghost coded = { change_code };

    ghost use Rattle.change_core.specs.Parts.{change_of_parts};

    ghost view = { λ c. change_of_parts c.merged c.life c.sets c.votes };
}

impl<A: Allocator + Copy> ChangeState<A> {
    /// The state of no operation.
    pub fn new(alloc: A) -> ChangeState<A>
        ensures { result ≡ no_change }
    {
        ChangeState {
            merged: Flag::new(false),
            life: Greatest::new(),
            sets: JoinList::new(alloc),
            votes: JoinList::new(alloc),
        }
    }

    /// Joins the effect of an operation into the state. The operation's change isn't looked at. Where memory is refused
    /// nothing changes. Its texts are copied, the message only where its commit wins.
    pub fn take(&mut self, op: &Op<A>) -> Result<(), NoMemory>
        ensures ok { OnOk result (self.new ≡ change_joined self.old (effect_of op.now)) }
        ensures err { OnErr result (self.new ≡ self.old) }
    {
        if self.has_outdone(op) {
            return Ok(());
        }
        self.consume(op.copy()?)
    }

    /// Joins the effect of an operation into the state, as `take` does, and keeps the texts of the operation itself.
    /// Where memory is refused nothing changes but that the operation is dropped.
    pub fn consume(&mut self, op: Op<A>) -> Result<(), NoMemory>
        ensures ok { OnOk result (self.new ≡ change_joined self.old (effect_of op)) }
        ensures err { OnErr result (self.new ≡ self.old) }
    {
        let (stamp, body) = op.into_parts();
        match body.into_draft() {
            Draft::PatchSet {
                set,
                message,
                parent,
                ..
            } => write_set(&mut self.sets, stamp, set, message, parent),
            Draft::Vote {
                set,
                label,
                voter,
                value,
                ..
            } => write_vote(&mut self.votes, stamp, set, label, voter, value),
            Draft::Withdraw {
                set,
                label,
                voter,
                ..
            } => write_vote(&mut self.votes, stamp, set, label, voter, 0),
            Draft::Abandon { .. } => self.life.join(Greatest::of(stamp, Life::Abandoned)),
            Draft::Restore { .. } => self.life.join(Greatest::of(stamp, Life::Restored)),
            Draft::Merged { .. } => self.merged.join(Flag::new(true)),
        }
    }

    /// Whether an operation is a patch set whose register holds as great a commit already.
    fn has_outdone(&self, op: &Op<A>) -> bool
        ensures { IsTrue result → self.now ≡ change_joined self.now (effect_of op.now) }
    {
        match op.body().draft() {
            Draft::PatchSet {
                set,
                message,
                parent,
                ..
            } => is_outdone(&self.sets, op.stamp(), *set, message.as_str(), *parent),
            _ => false,
        }
    }

    /// The state of one operation.
    pub fn effect(alloc: A, op: &Op<A>) -> Result<ChangeState<A>, NoMemory>
        ensures { IfOk result (λ state. state ≡ effect_of op.now) }
    {
        let mut state = ChangeState::new(alloc);
        state.take(op)?;
        Ok(state)
    }

    /// The status, as Gerrit has it: merged is final, else the newest abandon or restore decides.
    pub fn status(&self) -> Status
        ensures { result ≡ status_of self.now }
    {
        if self.merged.is_raised() {
            return Status::Merged;
        }
        match self.life() {
            Some((_, Life::Abandoned)) => Status::Abandoned,
            _ => Status::New,
        }
    }

    /// Whether the status is NEW.
    pub fn is_open(&self) -> bool
        ensures { IsTrue result ↔ (status_of self.now ≡ Status.New) }
    {
        matches!(self.status(), Status::New)
    }

    /// The winning abandon or restore, with its stamp.
    pub fn life(&self) -> Option<(Stamp, Life)>
        ensures { result ≡ self.now.life }
    {
        let register = self.life.get()?;
        Some((*register.key(), *register.value()))
    }

    /// Whether the patch set is known. It costs O(log n) for n patch sets.
    pub fn has_set(&self, set: u32) -> bool
        ensures { IsTrue result ↔ IsKnownSet self.now set }
    {
        self.sets.contains_key(&set)
    }

    /// The greatest known patch set, where one is known.
    pub fn current(&self) -> Option<u32>
        ensures { IsCurrent self.now result }
    {
        let (set, _) = self.sets.last()?;
        Some(*set)
    }

    /// The message of a patch set, where it is known. It costs O(log n) for n patch sets.
    pub fn message(&self, set: u32) -> Option<&str>
        ensures { option_map (λ text. text.now) result ≡ message_of self.now set }
    {
        let register = self.sets.get(&set)?;
        Some(register.value().message.as_str())
    }

    /// The change of a patch set's Git parent, where the patch set is known and names one. It costs O(log n) for n
    /// patch sets.
    pub fn parent(&self, set: u32) -> Option<u32>
        ensures { result ≡ parent_of self.now set }
    {
        self.sets.get(&set)?.value().parent
    }

    /// The registers of the known patch sets.
    pub fn sets(&self) -> &JoinList<u32, Register<Stamp, Commit<A>>, A>
        ensures { sets_shown result.now ≡ self.now.sets }
    {
        &self.sets
    }

    /// The registers of the slots with a vote or a withdrawn vote, by patch set, label and voter.
    pub fn all_votes(&self) -> &JoinList<VoteSlot<A>, Register<Stamp, i8>, A>
        ensures { votes_shown result.now ≡ self.now.votes }
    {
        &self.votes
    }

    /// The votes on a patch set, by label, then voter; a withdrawn vote is one of 0. It costs O(log n) for n votes of
    /// the change, and O(m) to walk the m on the patch set.
    pub fn votes(&self, set: u32) -> Votes<'_, A>
        ensures { result ≡ votes_of self.now set }
    {
        Votes::on(set, &self.votes)
    }

    /// The votes on a patch set that aren't 0, by label, then voter. It costs O(log n) for n votes of the change, and
    /// O(m) to walk the m on the patch set.
    pub fn approvals(&self, set: u32) -> Approvals<'_, A>
        ensures { result ≡ approvals_of self.now set }
    {
        Approvals::among(self.votes(set))
    }

    /// The patch sets with a vote or a withdrawn vote, known or not, in order, each once. To walk them costs O(n) for n
    /// votes of the change.
    pub fn voted(&self) -> VotedSets<'_, A>
        ensures { AreVotedSets self.now result }
    {
        VotedSets::among(&self.votes)
    }
}

/// Joined part by part. After a refusal the state lies between the old one and the join.
impl<A: Allocator + Copy> Join for ChangeState<A> {
    ghost use Rattle.change_core.specs.Change.{Change, change_joined, changes_join};

    ghost Shape = { Change };

    ghost shape = { λ c. c };

    ghost joined = { change_joined };

    ghost laws = { changes_join };

    fn join(&mut self, other: ChangeState<A>) -> Result<(), NoMemory> {
        let ChangeState {
            merged,
            life,
            sets,
            votes,
        } = other;
        self.merged.join(merged)?;
        self.life.join(life)?;
        self.sets.join(sets)?;
        self.votes.join(votes)
    }

    fn covers(&self, other: &ChangeState<A>) -> bool {
        self.merged.covers(&other.merged)
            && self.life.covers(&other.life)
            && self.sets.covers(&other.sets)
            && self.votes.covers(&other.votes)
    }

    fn same(&self, other: &ChangeState<A>) -> bool {
        self.merged.same(&other.merged)
            && self.life.same(&other.life)
            && self.sets.same(&other.sets)
            && self.votes.same(&other.votes)
    }

    fn copy(&self) -> Result<ChangeState<A>, NoMemory> {
        let merged = self.merged;
        let life = self.life.copy()?;
        let sets = self.sets.copy()?;
        let votes = self.votes.copy()?;
        Ok(ChangeState {
            merged,
            life,
            sets,
            votes,
        })
    }
}

/// Writes a commit to the register of its patch set.
fn write_set<A: Allocator + Copy>(
    sets: &mut JoinList<u32, Register<Stamp, Commit<A>>, A>,
    stamp: Stamp,
    set: u32,
    message: String<A>,
    parent: Option<u32>,
) -> Result<(), NoMemory>
    ensures ok { OnOk result (sets_shown sets.new ≡ put_joined (ord_max patch_order) (sets_shown sets.old) set (stamp, record { message = string_bytes message; parent = parent })) }
    ensures err { OnErr result (sets_shown sets.new ≡ sets_shown sets.old) }
{
    sets.join_at(set, Register::new(stamp, Commit { message, parent }))
}

/// Whether the register of a patch set holds as great a commit already, so that to write this one would change nothing.
fn is_outdone<A: Allocator + Copy>(
    sets: &JoinList<u32, Register<Stamp, Commit<A>>, A>,
    stamp: Stamp,
    set: u32,
    message: &str,
    parent: Option<u32>,
) -> bool
    ensures { IsTrue result ↔ Covers (option_joined (ord_max patch_order)) (finite.get (sets_shown sets.now) set)
        (Some (stamp, record { message = message.now; parent = parent })) }
{
    match sets.get(&set) {
        Some(held) => outdoes(held, stamp, message, parent),
        None => false,
    }
}

/// Whether a register holds a commit as great as this one under this stamp.
fn outdoes<A: Allocator + Copy>(
    held: &Register<Stamp, Commit<A>>,
    stamp: Stamp,
    message: &str,
    parent: Option<u32>,
) -> bool
    ensures { IsTrue result ↔ Covers (ord_max patch_order) (held.now.0, patch_of held.now.1)
        (stamp, record { message = message.now; parent = parent }) }
{
    held_order(held, stamp, message, parent) != Ordering::Less
}

/// How what a register holds compares to a commit under a stamp: by stamp, then as commits.
fn held_order<A: Allocator + Copy>(
    held: &Register<Stamp, Commit<A>>,
    stamp: Stamp,
    message: &str,
    parent: Option<u32>,
) -> Ordering
    ensures { result
        ≡ patch_order (held.now.0, patch_of held.now.1) (stamp, record { message = message.now; parent = parent }) }
{
    match held.key().cmp(&stamp) {
        Ordering::Equal => commit_order(held.value(), message, parent),
        decided => decided,
    }
}

/// How a commit compares to one with this message and parent: by message, byte by byte, then by parent.
fn commit_order<A: Allocator + Copy>(
    commit: &Commit<A>,
    message: &str,
    parent: Option<u32>,
) -> Ordering
    ensures { result ≡ patch_cmp (patch_of commit.now) (record { message = message.now; parent = parent }) }
{
    match commit.message.as_str().cmp(message) {
        Ordering::Equal => commit.parent.cmp(&parent),
        decided => decided,
    }
}

/// Writes a score to the register of its slot.
fn write_vote<A: Allocator + Copy>(
    votes: &mut JoinList<VoteSlot<A>, Register<Stamp, i8>, A>,
    stamp: Stamp,
    set: u32,
    label: String<A>,
    voter: String<A>,
    value: i8,
) -> Result<(), NoMemory>
    ensures ok { OnOk result (votes_shown votes.new ≡ put_joined (ord_max vote_order) (votes_shown votes.old) (record { set = set; label = string_bytes label; voter = string_bytes voter }) (stamp, value)) }
    ensures err { OnErr result (votes_shown votes.new ≡ votes_shown votes.old) }
{
    votes.join_at(VoteSlot { set, label, voter }, Register::new(stamp, value))
}
