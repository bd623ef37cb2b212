//! The votes on a patch set, its approvals, and the patch sets that have votes.

ghost use Rattle.std.specs.Prelude.{◌≡◌, None};
ghost use Rattle.std.specs.FinMap as finite;
ghost use Rattle.change_core.specs.Votes.{votes_among, approvals_among, sets_among, first_of_each};
ghost use Rattle.change_core.specs.Votes.{first_slot as least_slot};
ghost use Rattle.change_core.specs.Parts.{registers_shown, slot_of, votes_shown};

use super::vote_slot::VoteSlot;
use chunk_list::{Entries, JoinList};
use lattice_core::Register;
use review_ops::Stamp;
use std::alloc::{Allocator, Global};
use std::marker::Model;

/// A vote on a patch set.
#[derive(Clone, Copy, Debug)]
pub struct Vote<'a> {
    /// The label, in lower case.
    pub label: &'a str,
    /// Who voted.
    pub voter: &'a str,
    /// The score; a withdrawn vote is one of 0.
    pub value: i8,
    /// When it was cast, or withdrawn.
    pub stamp: Stamp,
}

/// A vote on a patch set whose value isn't 0.
#[derive(Clone, Copy, Debug)]
pub struct Approval<'a> {
    /// The label, in lower case.
    pub label: &'a str,
    /// Who approves, or disapproves.
    pub voter: &'a str,
    /// The score, which isn't 0.
    pub value: i8,
}

/// The votes on a patch set, by label, then voter. Contracts see those that are left.
#[derive(Drop)]
pub struct Votes<'a, A: Allocator + Copy = Global> {
    set: u32,
    registers: Entries<'a, VoteSlot<A>, Register<Stamp, i8>, A>,
}

impl<'a, A: Allocator + Copy> Model for Votes<'a, A> {
    ghost use Rattle.std.specs.Prelude.{List};
    ghost use Rattle.change_core.specs.Votes.{GivenVote, first_votes};
    ghost use Rattle.change_core.specs.Parts.{registers_shown};

    ghost Value = { List GivenVote };

    ghost view = { λ votes. first_votes votes.set (registers_shown votes.registers) };
}

impl<'a, A: Allocator + Copy> Votes<'a, A> {
    /// The votes on a patch set among the registers of a change.
    pub(crate) fn on(
        set: u32,
        registers: &'a JoinList<VoteSlot<A>, Register<Stamp, i8>, A>,
    ) -> Votes<'a, A>
        ensures { result ≡ votes_among set (finite.entries (votes_shown registers.now)) }
    {
        Votes {
            set,
            registers: registers.from_key(&first_slot(registers.allocator(), set)),
        }
    }
}

/// The first slot that a vote on a patch set could have: that of the empty label and the empty voter. It takes no
/// memory.
fn first_slot<A: Allocator + Copy>(alloc: A, set: u32) -> VoteSlot<A>
    ensures { slot_of result ≡ least_slot set }
{
    VoteSlot {
        set,
        label: String::new(alloc),
        voter: String::new(alloc),
    }
}

impl<'a, A: Allocator + Copy> Iterator for Votes<'a, A> {
    ghost use Rattle.std.specs.Iterator.{YieldsFirstBy, item_count};
    ghost use Rattle.change_core.specs.VoteShown.{vote_shown};

    type Item = Vote<'a>;

    ghost next_gives = { YieldsFirstBy vote_shown (λ votes. votes) };

    ghost remaining = { item_count (λ votes. votes) };

    fn next(&mut self) -> Option<Vote<'a>> {
        let (slot, register) = self.registers.next()?;
        if slot.set != self.set {
            self.registers = Entries::none();
            return None;
        }
        Some(Vote {
            label: slot.label.as_str(),
            voter: slot.voter.as_str(),
            value: *register.value(),
            stamp: *register.key(),
        })
    }
}

/// The approvals of a patch set, by label, then voter. Contracts see those that are left.
#[derive(Drop)]
pub struct Approvals<'a, A: Allocator + Copy = Global> {
    votes: Votes<'a, A>,
}

impl<'a, A: Allocator + Copy> Model for Approvals<'a, A> {
    ghost use Rattle.std.specs.Prelude.{List};
    ghost use Rattle.change_core.specs.Votes.{GivenApproval, approvals_among};

    ghost Value = { List GivenApproval };

    ghost view = { λ approvals. approvals_among approvals.votes };
}

impl<'a, A: Allocator + Copy> Approvals<'a, A> {
    /// The approvals among votes.
    pub(crate) fn among(votes: Votes<'a, A>) -> Approvals<'a, A>
        ensures { result ≡ approvals_among votes.entry }
    {
        Approvals { votes }
    }
}

impl<'a, A: Allocator + Copy> Iterator for Approvals<'a, A> {
    ghost use Rattle.std.specs.Iterator.{YieldsFirstBy, item_count};
    ghost use Rattle.change_core.specs.VoteShown.{approval_shown};

    type Item = Approval<'a>;

    ghost next_gives = { YieldsFirstBy approval_shown (λ approvals. approvals) };

    ghost remaining = { item_count (λ approvals. approvals) };

    fn next(&mut self) -> Option<Approval<'a>> {
        while let Some(vote) = self.votes.next() {
            if vote.value != 0 {
                return Some(Approval {
                    label: vote.label,
                    voter: vote.voter,
                    value: vote.value,
                });
            }
        }
        None
    }
}

/// The patch sets with a vote, in order, each once. Contracts see those that are left.
#[derive(Drop)]
pub struct VotedSets<'a, A: Allocator + Copy = Global> {
    last: Option<u32>,
    registers: Entries<'a, VoteSlot<A>, Register<Stamp, i8>, A>,
}

impl<'a, A: Allocator + Copy> Model for VotedSets<'a, A> {
    ghost use Rattle.std.specs.Prelude.{ℕ, List};
    ghost use Rattle.change_core.specs.Votes.{sets_among, first_of_each};
    ghost use Rattle.change_core.specs.Parts.{registers_shown};

    ghost Value = { List ℕ };

    ghost view = { λ voted. first_of_each voted.last (sets_among (registers_shown voted.registers)) };
}

impl<'a, A: Allocator + Copy> VotedSets<'a, A> {
    /// The patch sets that have votes among the registers of a change.
    pub(crate) fn among(
        registers: &'a JoinList<VoteSlot<A>, Register<Stamp, i8>, A>,
    ) -> VotedSets<'a, A>
        ensures { result ≡ first_of_each None (sets_among (finite.entries (votes_shown registers.now))) }
    {
        VotedSets {
            last: None,
            registers: registers.iter(),
        }
    }
}

impl<'a, A: Allocator + Copy> Iterator for VotedSets<'a, A> {
    ghost use Rattle.std.specs.Iterator.{YieldsFirst, item_count};

    type Item = u32;

    ghost next_gives = { YieldsFirst (λ voted. voted) };

    ghost remaining = { item_count (λ voted. voted) };

    fn next(&mut self) -> Option<u32> {
        while let Some((slot, _)) = self.registers.next() {
            if self.last != Some(slot.set) {
                self.last = Some(slot.set);
                return Some(slot.set);
            }
        }
        None
    }
}
