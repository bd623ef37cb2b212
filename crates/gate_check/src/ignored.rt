//! Footers of a record that begin with a base of a gate and yet name no change.

ghost use Rattle.std.specs.Prelude.{◌≡◌, IfOk, MatchBool, OnOk, map, string_bytes};
ghost use Rattle.std.specs.FinMap as finite;
ghost use Rattle.change_core.specs.Parts.{patch_of, sets_shown};
ghost use Rattle.state_core.specs.State.{state_shown};
ghost use Rattle.gate_check.specs.Gained.{GainsTexts};
ghost use Rattle.gate_check.specs.Ignored.{AreIgnored, BeginsLike, IsNearMiss, LineMisses, MessageMisses};
ghost use Rattle.gate_check.specs.Unused.{SomeIs, messages_in, messages_of};

use super::names::add;
use change_core::Commit;
use chunk_list::JoinList;
use footer_text::{Bases, footer_value, footers_are_unique};
use lattice_core::{JoinMap, NoMemory, Register};
use review_ops::Stamp;
use state_core::{SharedChange, State};
use std::alloc::Global;
use std::collections::BTreeSet;

/// The values of the record's footers that begin with a base, in any letter case, and yet name no change, in byte
/// order. It costs O(n) for each base and messages of n bytes, and O(v log v) for v such values.
pub fn ignored_values(
    alloc: Global,
    bases: &Bases,
    state: &State,
) -> Result<BTreeSet<String>, NoMemory>
    ensures { IfOk result
        (λ values. AreIgnored bases.now (messages_in state.now) (map string_bytes values.keys)) }
{
    let mut values = BTreeSet::new(alloc);
    add_changes(alloc, bases, state.changes(), &mut values)?;
    let _in_order = values.len();
    Ok(values)
}

/// Adds those of changes.
fn add_changes(
    alloc: Global,
    bases: &Bases,
    changes: &JoinMap<u32, SharedChange, Global>,
    values: &mut BTreeSet<String>,
) -> Result<(), NoMemory>
    ensures { OnOk result (GainsTexts values.old
        (λ value. SomeIs (MessageMisses bases.now value) (messages_in (state_shown changes.now))) values.new) }
{
    for (number, change) in changes {
        let _of = number;
        add_sets(alloc, bases, change.get().sets(), values)?;
    }
    Ok(())
}

/// Adds those of a change's patch sets.
fn add_sets(
    alloc: Global,
    bases: &Bases,
    sets: &JoinList<u32, Register<Stamp, Commit<Global>>, Global>,
    values: &mut BTreeSet<String>,
) -> Result<(), NoMemory>
    ensures { OnOk result (GainsTexts values.old
        (λ value. SomeIs (MessageMisses bases.now value) (messages_of (finite.entries (sets_shown sets.now))))
        values.new) }
{
    for (set, register) in sets {
        let _of = set;
        add_register(alloc, bases, register, values)?;
    }
    Ok(())
}

/// Adds those of a patch set's message.
fn add_register(
    alloc: Global,
    bases: &Bases,
    register: &Register<Stamp, Commit<Global>>,
    values: &mut BTreeSet<String>,
) -> Result<(), NoMemory>
    ensures { OnOk result (GainsTexts values.old
        (λ value. MessageMisses bases.now value (patch_of register.now.1).message) values.new) }
{
    add_message(alloc, bases, register.value().message.as_str(), values)
}

/// Adds those of a message.
fn add_message(
    alloc: Global,
    bases: &Bases,
    message: &str,
    values: &mut BTreeSet<String>,
) -> Result<(), NoMemory>
    ensures { OnOk result (GainsTexts values.old (λ value. MessageMisses bases.now value message.now) values.new) }
{
    for line in message.split('\n') {
        add_line(alloc, bases, line, values)?;
    }
    Ok(())
}

/// Adds that of a line, if it is such a footer.
fn add_line(
    alloc: Global,
    bases: &Bases,
    line: &str,
    values: &mut BTreeSet<String>,
) -> Result<(), NoMemory>
    ensures { OnOk result (GainsTexts values.old (λ value. LineMisses bases.now value line.now) values.new) }
{
    footers_are_unique();
    let Some(value) = footer_value(line) else {
        return Ok(());
    };
    if is_near_miss(bases, value) {
        add(alloc, values, value)?;
    }
    Ok(())
}

/// Whether a value begins with a base, in any letter case, and yet names no change.
fn is_near_miss(bases: &Bases, value: &str) -> bool
    ensures { MatchBool result (IsNearMiss bases.now value.now) (¬ IsNearMiss bases.now value.now) }
{
    begins_with_base(bases, value) && bases.named_change(value).is_none()
}

/// Whether a value begins with a base, in any letter case.
fn begins_with_base(bases: &Bases, value: &str) -> bool
    ensures { MatchBool result
        (SomeIs (λ base. BeginsLike base value.now) bases.now) (¬ SomeIs (λ base. BeginsLike base value.now) bases.now) }
{
    for place in 0..bases.len() {
        let base = bases.get(place).unwrap();
        if begins_like(base.as_bytes(), value.as_bytes()) {
            return true;
        }
    }
    false
}

/// Whether a text begins with the start, in any letter case.
fn begins_like(start: &[u8], text: &[u8]) -> bool
    ensures { MatchBool result (BeginsLike start.now text.now) (¬ BeginsLike start.now text.now) }
{
    if text.len() < start.len() {
        return false;
    }
    text[..start.len()].eq_ignore_ascii_case(start)
}
