//! Reads the inputs of commands, each to the limit of its kind, and judges them.

ghost use Rattle.std.specs.Prelude.{◌≡◌, IfOk, IfErr, IsSomeAnd, List, option_map, string_bytes};
ghost use Rattle.gate_rules.specs.Spelling.{SpellsGate};
ghost use Rattle.byte_ends.specs.Lines.{lines_of};
ghost use Rattle.replica_core.specs.Journal.{all_arrived};
ghost use Rattle.snapshot_text.specs.Snapshot.{SaysOperations};
ghost use Rattle.review_ops.specs.Operation.{Operation};
ghost use Rattle.byte_ends.specs.declared.faults.BytesFault.{BytesFault};
ghost use Rattle.console.specs.Console.{IsRead, IsUnread};
ghost use Rattle.console.specs.Inputs.{IsGateHad, IsHad, IsRefused, IsUnreadAs, gate_file, input, message_file};
ghost use Rattle.console.specs.Inputs.{pulled, record_input, script_file, snapshot_file};

use super::addresses::{is_site_name, site_of};
use super::refusals::Refusal;
use super::streams::Console;
use gate_rules::Gate;
use replica_core::Gathering;
use std::alloc::Global;
use std::str;

/// The most bytes of a script, a gate file or a message file: 1 MiB.
const TEXT_LIMIT: usize = 1_048_576;

/// A gate file: its rules, and the bytes that spell them.
#[derive(Drop)]
pub struct GateFile {
    pub rules: Gate,
    pub text: Vec<u8>,
}

/// The gate of a name. Refusals: `File`, it isn't read; `Gate`, it spells no gate.
pub fn read_gate<'n, C: Console>(
    alloc: Global,
    name: &'n str,
    console: &mut C,
) -> Result<Gate, Refusal<'n>>
    ensures had { IfOk result (λ rules. IsHad (input gate_file name.now) (λ text. SpellsGate text rules) (C.state console.old) (C.state console.new)) }
    ensures refused { IfErr result (IsRefused (input gate_file name.now) (C.state console.old) (C.state console.new)) }
{
    let text = read_text(alloc, name, console)?;
    let rules = Gate::read(alloc, text.as_slice())?;
    Ok(rules)
}

/// The gate file of a name. The refusals are those of `read_gate`.
pub fn read_gate_file<'n, C: Console>(
    alloc: Global,
    name: &'n str,
    console: &mut C,
) -> Result<GateFile, Refusal<'n>>
    ensures had { IfOk result (λ file. IsHad (input gate_file name.now)
        (λ text. SpellsGate text file.rules × (text ≡ file.text.items)) (C.state console.old) (C.state console.new)) }
    ensures refused { IfErr result (IsRefused (input gate_file name.now) (C.state console.old) (C.state console.new)) }
{
    let text = read_text(alloc, name, console)?;
    let rules = Gate::read(alloc, text.as_slice())?;
    Ok(GateFile { rules, text })
}

/// The gate of a name, where one is named. The refusals are those of `read_gate`.
pub fn read_any_gate<'n, C: Console>(
    alloc: Global,
    name: Option<&'n str>,
    console: &mut C,
) -> Result<Option<Gate>, Refusal<'n>>
    ensures had { IfOk result (λ rules. IsGateHad (option_map (λ gate. gate.now) name.entry) rules (C.state console.old) (C.state console.new)) }
    ensures refused { IfErr result (λ refusal. IsSomeAnd name.entry (λ gate.
        IsRefused (input gate_file gate.now) (C.state console.old) (C.state console.new) refusal)) }
{
    let Some(name) = name else {
        return Ok(None);
    };
    let rules = read_gate(alloc, name, console)?;
    Ok(Some(rules))
}

/// The message of a name. Refusals: `File`, it isn't read; `NotText`, it isn't UTF-8.
pub fn read_message<'n, C: Console>(
    alloc: Global,
    name: &'n str,
    console: &mut C,
) -> Result<String, Refusal<'n>>
    ensures had { IfOk result (λ message. IsHad (input message_file name.now) (λ text. text ≡ string_bytes message) (C.state console.old) (C.state console.new)) }
    ensures refused { IfErr result
        (IsRefused (input message_file name.now) (C.state console.old) (C.state console.new)) }
{
    let text = read_text(alloc, name, console)?;
    match String::from_utf8(text) {
        Ok(message) => Ok(message),
        Err(_) => Err(Refusal::NotText(name)),
    }
}

/// The bytes of a script, a gate file or a message of a name. Refusal: `File`, it isn't read.
fn read_text<'n, C: Console>(
    alloc: Global,
    name: &'n str,
    console: &mut C,
) -> Result<Vec<u8>, Refusal<'n>>
    ensures read { IfOk result
        (λ bytes. IsRead name.now 1048576 (C.state console.old) (C.state console.new) bytes.items) }
    ensures unread { IfErr result (λ refusal. (fault : BytesFault) × IsUnreadAs name.now fault refusal
        × IsUnread name.now 1048576 (C.state console.old) (C.state console.new) fault) }
{
    match console.read(alloc, name, TEXT_LIMIT) {
        Ok(bytes) => Ok(bytes),
        Err(fault) => Err(Refusal::File(name, fault)),
    }
}

/// The bytes of the script of a name. Refusal: `File`, it isn't read.
pub fn read_script<'n, C: Console>(
    alloc: Global,
    name: &'n str,
    console: &mut C,
) -> Result<Vec<u8>, Refusal<'n>>
    ensures had { IfOk result (λ script. IsHad (input script_file name.now) (λ text. text ≡ script.items) (C.state console.old) (C.state console.new)) }
    ensures refused { IfErr result
        (IsRefused (input script_file name.now) (C.state console.old) (C.state console.new)) }
{
    let text = read_text(alloc, name, console)?;
    Ok(text)
}

/// The gathering to which the operations of the snapshot of a name came, after those that it has. Refusal: `Snapshot`,
/// it isn't read, or says no operations.
pub fn read_snapshot<'n, C: Console>(
    gathering: Gathering,
    name: &'n str,
    console: &mut C,
) -> Result<Gathering, Refusal<'n>>
    ensures had { IfOk result (λ both. (ops : List Operation) × (both ≡ all_arrived gathering ops)
        × IsHad (input snapshot_file name.now) (λ text. SaysOperations (lines_of text) ops) (C.state console.old)
        (C.state console.new)) }
    ensures refused { IfErr result
        (IsRefused (input snapshot_file name.now) (C.state console.old) (C.state console.new)) }
{
    match console.read_snapshot(gathering, name) {
        Ok(both) => Ok(both),
        Err(fault) => Err(Refusal::Snapshot(fault, name)),
    }
}

/// The gathering to which the operations of the record of a name came, after those that it has: for `@ADDRESS` the
/// record of the running site at that address of this machine, for any other name that of a snapshot. Refusals: those
/// of `read_snapshot`; `NoAddress`, there is no address behind the `@`; `Peer`, the record isn't pulled.
pub fn read_record<'n, C: Console>(
    gathering: Gathering,
    name: &'n str,
    console: &mut C,
) -> Result<Gathering, Refusal<'n>>
    ensures had { IfOk result (λ both. (ops : List Operation) × (both ≡ all_arrived gathering ops)
        × IsHad (record_input name.now) (λ text. SaysOperations (lines_of text) ops) (C.state console.old)
        (C.state console.new)) }
    ensures refused { IfErr result
        (IsRefused (record_input name.now) (C.state console.old) (C.state console.new)) }
{
    if is_site_name(name) {
        pull_record(gathering, name, console)
    } else {
        read_snapshot(gathering, name, console)
    }
}

/// The same of a name that begins with `@`.
fn pull_record<'n, C: Console>(
    gathering: Gathering,
    name: &'n str,
    console: &mut C,
) -> Result<Gathering, Refusal<'n>>
    ensures had { IfOk result (λ both. (ops : List Operation) × (both ≡ all_arrived gathering ops)
        × IsHad (input pulled name.now) (λ text. SaysOperations (lines_of text) ops) (C.state console.old)
        (C.state console.new)) }
    ensures refused { IfErr result
        (IsRefused (input pulled name.now) (C.state console.old) (C.state console.new)) }
{
    let Some(address) = site_of(name) else {
        return Err(Refusal::NoAddress(name));
    };
    match console.pull(gathering, address) {
        Ok(both) => Ok(both),
        Err(fault) => Err(Refusal::Peer(fault, address)),
    }
}
