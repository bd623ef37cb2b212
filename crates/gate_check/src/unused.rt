//! Bases of a gate that no footer of a record has.

ghost use Rattle.std.specs.Prelude.{◌≡◌, IfOk, MatchBool};
ghost use Rattle.std.specs.List.{AllZip};
ghost use Rattle.std.specs.FinMap as finite;
ghost use Rattle.change_core.specs.Parts.{patch_of, sets_shown};
ghost use Rattle.state_core.specs.State.{state_shown};
ghost use Rattle.gate_check.specs.Unused.{HasFooter, HasValue, IsSought, IsUnusedBase, IsUrl, SomeIs, messages_in};
ghost use Rattle.gate_check.specs.Unused.{messages_of};

use change_core::Commit;
use chunk_list::JoinList;
use footer_text::{Bases, footer_value, footers_are_unique, read_value};
use lattice_core::{JoinMap, NoMemory, Register};
use review_ops::Stamp;
use state_core::{SharedChange, State};
use std::alloc::Global;

/// What is looked for among the footers of a record.
#[derive(Clone, Copy)]
pub enum Sought<'g> {
    /// A value that names a change under this base.
    Under(&'g str),
    /// A URL that names a change under none of these bases.
    Elsewhere(&'g Bases),
}

/// Of each base, in their order, whether no footer of the record names a change under it, while one has a URL that
/// names none under any base. It costs O(n) for each base and messages of n bytes.
pub fn unused_bases(alloc: Global, bases: &Bases, state: &State) -> Result<Vec<bool>, NoMemory>
    ensures { IfOk result (λ unused. AllZip
        (λ base is_so. MatchBool is_so
        (IsUnusedBase bases.now (messages_in state.now) base) (¬ IsUnusedBase bases.now (messages_in state.now) base))
        bases.now unused.items) }
{
    let mut unused = Vec::new(alloc);
    for place in 0..bases.len() {
        let base = bases.get(place).unwrap();
        unused.push(is_unused(bases, base, state))?;
    }
    Ok(unused)
}

/// Whether no footer of the record names a change under a base, while one has a URL that names none under any.
fn is_unused(bases: &Bases, base: &str, state: &State) -> bool
    ensures { MatchBool result
        (IsUnusedBase bases.now (messages_in state.now) base.now) (¬ IsUnusedBase bases.now (messages_in state.now) base.now) }
{
    if Sought::Under(base).is_in_record(state.changes()) {
        return false;
    }
    Sought::Elsewhere(bases).is_in_record(state.changes())
}

impl<'g> Sought<'g> {
    /// Whether it is in a message of a record.
    fn is_in_record(self, changes: &JoinMap<u32, SharedChange, Global>) -> bool
        ensures { MatchBool result
            (SomeIs (HasFooter (IsSought self.entry)) (messages_in (state_shown changes.now)))
            (¬ SomeIs (HasFooter (IsSought self.entry)) (messages_in (state_shown changes.now))) }
    {
        for (number, change) in changes {
            let _of = number;
            if self.is_in_change(change.get().sets()) {
                return true;
            }
        }
        false
    }

    /// Whether it is in a message of a change.
    fn is_in_change(self, sets: &JoinList<u32, Register<Stamp, Commit<Global>>, Global>) -> bool
        ensures { MatchBool result
            (SomeIs (HasFooter (IsSought self.entry)) (messages_of (finite.entries (sets_shown sets.now))))
            (¬ SomeIs (HasFooter (IsSought self.entry)) (messages_of (finite.entries (sets_shown sets.now)))) }
    {
        for (set, register) in sets {
            let _of = set;
            if self.is_in_register(register) {
                return true;
            }
        }
        false
    }

    /// Whether it is in the message of a patch set.
    fn is_in_register(self, register: &Register<Stamp, Commit<Global>>) -> bool
        ensures { MatchBool result
            (HasFooter (IsSought self.entry) (patch_of register.now.1).message)
            (¬ HasFooter (IsSought self.entry) (patch_of register.now.1).message) }
    {
        self.is_in_message(register.value().message.as_str())
    }

    /// Whether it is in a message.
    fn is_in_message(self, message: &str) -> bool
        ensures { MatchBool result
            (HasFooter (IsSought self.entry) message.now) (¬ HasFooter (IsSought self.entry) message.now) }
    {
        for line in message.split('\n') {
            if self.is_in_line(line) {
                return true;
            }
        }
        false
    }

    /// Whether it is in a line.
    fn is_in_line(self, line: &str) -> bool
        ensures { MatchBool result
            (HasValue (IsSought self.entry) line.now) (¬ HasValue (IsSought self.entry) line.now) }
    {
        footers_are_unique();
        match footer_value(line) {
            Some(value) => self.is(value),
            None => false,
        }
    }

    /// Whether the value of a footer is what is sought.
    fn is(self, value: &str) -> bool
        ensures { MatchBool result (IsSought self.entry value.now) (¬ IsSought self.entry value.now) }
    {
        match self {
            Sought::Under(base) => read_value(base, value).is_some(),
            Sought::Elsewhere(bases) => is_url(value) && bases.named_change(value).is_none(),
        }
    }
}

/// Whether a value is a URL.
fn is_url(value: &str) -> bool
    ensures { MatchBool result (IsUrl value.now) (¬ IsUrl value.now) }
{
    value.starts_with("http://") || value.starts_with("https://")
}
