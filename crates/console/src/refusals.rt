//! Why a command ended with status 1.

ghost use Rattle.std.specs.Prelude.{◌≡◌, ◌++◌, IfOk, OnOk, codes, string_bytes};
ghost use Rattle.console.specs.declared.refusals.Refusal.TheVariants.{Script as BadScript, Gate as BadGate};
ghost use Rattle.site_address.specs.Address.{address_text};
ghost use Rattle.snapshot_text.specs.Fault.{words_of as snap_words_of};
ghost use Rattle.console.specs.Refusals.{file_words, item_words, name_words, number_of, part_of};
ghost use Rattle.console.specs.Refusals.{refusal_line, words_of};

use super::pulls::PullFault;
use super::streams::is_input;
use byte_ends::BytesFault;
use gate_rules::GateFault;
use refusal_line::{Part, refusal_line};
use script_text::ScriptFault;
use site_address::Address;
use snapshot_text::SnapFault;
use std::alloc::{AllocError, Global};

/// Why a command ended with status 1, by the part of the program that refused.
#[derive(Debug, Drop)]
pub enum Refusal<'n> {
    Script(ScriptFault),
    /// The snapshot of this name, or that on the input.
    Snapshot(SnapFault, &'n str),
    Gate(GateFault),
    /// The file of this name, or the input, isn't read.
    File(&'n str, BytesFault),
    /// The message of this name isn't UTF-8.
    NotText(&'n str),
    /// The record of the site at this address isn't pulled.
    Peer(PullFault, Address<'n>),
    /// This name begins as that of a running site, but has no address.
    NoAddress(&'n str),
    /// What is asked for isn't known: this patch set of the change, or, where none is named, the change's items.
    NoItem(u32, Option<u32>),
    /// The item that is asked for waits; its line was printed, which says why.
    Waits,
    /// There are this many warnings, and `--strict` was given.
    Warnings(usize),
    /// The output failed.
    Output,
    /// Memory was refused, and no other part reports it.
    Memory,
}

impl<'n> Refusal<'n> {
    /// The line that is printed of the refusal.
    pub fn line(&self, alloc: Global) -> Result<String, AllocError>
        ensures { IfOk result (λ line. string_bytes line ≡ refusal_line self.now) }
    {
        let mut words = String::new(alloc);
        self.write_words(&mut words)?;
        refusal_line(alloc, self.part(), self.number(), words.as_str())
    }

    /// The part that refused.
    fn part(&self) -> Part
        ensures { result ≡ part_of self.now }
    {
        match self {
            Refusal::Script(_) => Part::Script,
            Refusal::Snapshot(_, _) => Part::Snapshot,
            Refusal::Gate(_) => Part::Gate,
            Refusal::File(_, _) | Refusal::NotText(_) => Part::File,
            Refusal::Peer(_, _) | Refusal::NoAddress(_) => Part::Peer,
            Refusal::NoItem(_, _) | Refusal::Waits => Part::Item,
            Refusal::Warnings(_) => Part::Check,
            Refusal::Output => Part::Output,
            Refusal::Memory => Part::Memory,
        }
    }

    /// The number of the fault.
    fn number(&self) -> u8
        ensures { result ≡ number_of self.now }
    {
        match self {
            Refusal::Script(fault) => fault.number(),
            Refusal::Snapshot(fault, _) => fault.number(),
            Refusal::Gate(fault) => fault.number(),
            Refusal::File(_, fault) => fault.number(),
            Refusal::NotText(_) | Refusal::NoAddress(_) => 9,
            Refusal::Peer(fault, _) => fault.number(),
            Refusal::Waits => 2,
            Refusal::NoItem(_, _) | Refusal::Warnings(_) | Refusal::Output | Refusal::Memory => 1,
        }
    }

    /// Writes the words of the fault: its name, and what is known of it.
    fn write_words(&self, words: &mut String) -> Result<(), AllocError>
        ensures { OnOk result (string_bytes words.new ≡ string_bytes words.old ++ words_of self.now) }
    {
        match self {
            Refusal::Script(fault) => fault.write_words(words),
            Refusal::Snapshot(fault, name) => write_snapshot(words, fault, name),
            Refusal::Gate(fault) => fault.write_words(words),
            Refusal::File(name, fault) => write_file(words, fault.name(), name),
            Refusal::NotText(name) => write_file(words, "NotText", name),
            Refusal::Peer(fault, address) => write_peer(words, fault.name(), *address),
            Refusal::NoAddress(name) => write!(words, "NoAddress {name}"),
            Refusal::NoItem(change, set) => write_item(words, *change, *set),
            Refusal::Waits => words.push_str("Waits"),
            Refusal::Warnings(count) => write!(words, "Warnings {count}"),
            Refusal::Output => words.push_str("WriteFault"),
            Refusal::Memory => words.push_str("NoMemory"),
        }
    }
}

/// Writes the words of a file's fault: the file's name comes after the fault's, and that of the input is left out.
fn write_file(words: &mut String, fault: &str, name: &str) -> Result<(), AllocError>
    ensures { OnOk result (string_bytes words.new ≡ string_bytes words.old ++ file_words fault.now name.now) }
{
    words.push_str(fault)?;
    write_name(words, name)
}

/// Writes the words of a snapshot's fault, and the name of its file as that of another file is written.
fn write_snapshot(words: &mut String, fault: &SnapFault, name: &str) -> Result<(), AllocError>
    ensures { OnOk result
        (string_bytes words.new ≡ string_bytes words.old ++ file_words (snap_words_of fault.now) name.now) }
{
    fault.write_words(words)?;
    write_name(words, name)
}

/// Writes the name of a file after what was said of it, and nothing of the input.
fn write_name(words: &mut String, name: &str) -> Result<(), AllocError>
    ensures { OnOk result (string_bytes words.new ≡ string_bytes words.old ++ name_words name.now) }
{
    if is_input(name) {
        return Ok(());
    }
    words.push_str(" ")?;
    words.push_str(name)
}

/// Writes the words of a pull's fault, and the address.
fn write_peer(words: &mut String, fault: &str, address: Address<'_>) -> Result<(), AllocError>
    ensures { OnOk result
        (string_bytes words.new ≡ string_bytes words.old ++ fault.now ++ codes " " ++ address_text address.entry) }
{
    write!(words, "{fault} ")?;
    address.write(words)
}

/// Writes the words of an item that isn't known.
fn write_item(words: &mut String, change: u32, set: Option<u32>) -> Result<(), AllocError>
    ensures { OnOk result (string_bytes words.new ≡ string_bytes words.old ++ item_words change set) }
{
    match set {
        Some(set) => write!(words, "NoItem {change},{set}"),
        None => write!(words, "NoItem {change}"),
    }
}

impl<'n> From<ScriptFault> for Refusal<'n> {
    ghost from_gives = { λ fault refusal. refusal ≡ BadScript fault };

    fn from(fault: ScriptFault) -> Refusal<'n> {
        Refusal::Script(fault)
    }
}

impl<'n> From<GateFault> for Refusal<'n> {
    ghost from_gives = { λ fault refusal. refusal ≡ BadGate fault };

    fn from(fault: GateFault) -> Refusal<'n> {
        Refusal::Gate(fault)
    }
}
