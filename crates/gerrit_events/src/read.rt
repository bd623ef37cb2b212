//! Reads lines.

ghost use Rattle.std.specs.Prelude.{◌≡◌, ℕ, List, [], ◌∷◌, IfOk, OnErr, MatchOption, OnOk, IsUtf8, Some};
ghost use Rattle.serde_json.specs.Data.{Members, object};
ghost use Rattle.gerrit_events.specs.declared.fault.EventFault.TheVariants.{BadEvent};
ghost use Rattle.gerrit_events.specs.declared.finding.Finding.TheVariants.{Refuses};
ghost use Rattle.gerrit_events.specs.Claims.{claims_by};
ghost use Rattle.gerrit_events.specs.Patches.{patches_after, brought_by, learned};
ghost use Rattle.gerrit_events.specs.PatchShown.{patch_shown};
ghost use Rattle.gerrit_events.specs.Parts.{part_by};
ghost use Rattle.gerrit_events.specs.Reading.{ClaimsAreSettled, IsLineObject, Reads, claims_of, known_after};
ghost use Rattle.gerrit_events.specs.declared.part.Part.TheVariants.{Nothing};
ghost use Rattle.gerrit_events.specs.Trees.{data_in};

use super::claim::Claim;
use super::event::Event;
use super::fault::{EventFault, EventKey};
use super::finding::Finding;
use super::kind::Kind;
use super::known::{Known, Revisions};
use super::line::Line;
use super::parsed_line::ParsedLine;
use super::part::Part;
use super::patch::Patch;
use super::projects::Projects;
use super::tree::{is_object, value_of};
use json::{Scratch, Value};
use lattice_core::NoMemory;
use std::alloc::Global;
use std::str;

/// The most bytes of a line that is read in the room that is kept. What a longer one takes is given back.
const KEPT_ROOM: usize = 1_048_576;

/// What a line is, and what is found in it, in order: the bodies that it brings, what it says beside, and what of it is
/// refused. Nothing is found in a line of a project that isn't among these. Where memory is refused nothing is learned.
/// It costs O(n) for n bytes of the line, and a look-up for each parent that it names.
pub fn read_event(
    alloc: Global,
    known: &mut Known,
    projects: &Projects,
    line: &[u8],
) -> Result<ParsedLine, NoMemory>
    ensures read { IfOk result (λ parsed. Reads known.old projects.now line.now parsed known.new) }
    ensures kept { OnErr result (known.new ≡ known.old) }
{
    match str::from_utf8(line) {
        Ok(text) if line.len() > KEPT_ROOM => {
            let mut room = Scratch::new(alloc);
            read_text(alloc, &mut known.revisions, &mut room, projects, text)
        }
        Ok(text) => read_text(alloc, &mut known.revisions, &mut known.room, projects, text),
        Err(_) => refused(alloc, EventKey::Line),
    }
}

/// What is found in the text of a line.
fn read_text(
    alloc: Global,
    known: &mut Revisions,
    room: &mut Scratch,
    projects: &Projects,
    text: &str,
) -> Result<ParsedLine, NoMemory>
    requires { IsUtf8 text.now }
    ensures read { IfOk result (λ parsed. Reads known.old projects.now text.now parsed known.new) }
    ensures kept { OnErr result (known.new ≡ known.old) }
{
    let Some(value) = object_of(alloc, room, text)? else {
        return refused(alloc, EventKey::Line);
    };
    match Kind::of(&value) {
        None => refused(alloc, EventKey::TypeName),
        Some(kind) => read_kind(
            alloc,
            known,
            projects,
            Line {
                kind,
                value: &value,
            },
        ),
    }
}

/// The JSON object that a text is, where it is one.
pub fn object_of<'a>(
    alloc: Global,
    room: &'a mut Scratch,
    text: &'a str,
) -> Result<Option<Value<'a>>, NoMemory>
    requires { IsUtf8 text.now }
    ensures { IfOk result (λ found. MatchOption found
        ((members : Members) → ¬ IsLineObject text.now members)
        (λ value. (members : Members) × (data_in value ≡ object members) × IsLineObject text.now members)) }
{
    let Some(value) = value_of(alloc, room, text)? else {
        return Ok(None);
    };
    if is_object(&value) {
        Ok(Some(value))
    } else {
        Ok(None)
    }
}

/// The line is refused.
fn refused(alloc: Global, key: EventKey) -> Result<ParsedLine, NoMemory>
    ensures { IfOk result (λ parsed. parsed ≡ record { part = Nothing; findings = Refuses (BadEvent key) ∷ [] }) }
{
    let mut findings = Vec::new(alloc);
    findings.push(Finding::Refuses(EventFault::BadEvent(key)))?;
    Ok(ParsedLine {
        part: Part::Nothing,
        findings,
    })
}

/// What is found in a line of a known kind.
fn read_kind(
    alloc: Global,
    known: &mut Revisions,
    projects: &Projects,
    line: Line<'_, '_>,
) -> Result<ParsedLine, NoMemory>
    ensures part { IfOk result (λ parsed. parsed.part ≡ part_by line.entry.kind (data_in line.entry.value.now)) }
    ensures settled { IfOk result (λ parsed. ClaimsAreSettled
        (claims_of known.old projects.now (Some line.entry.kind) (data_in line.entry.value.now)) parsed.findings) }
    ensures learned { OnOk result (known.new
        ≡ known_after known.old projects.now (Some line.entry.kind) (data_in line.entry.value.now)) }
    ensures kept { OnErr result (known.new ≡ known.old) }
{
    let part = line.part();
    if !projects.feeds(line.change_part()) {
        return Ok(ParsedLine {
            part,
            findings: Vec::new(alloc),
        });
    }
    Ok(ParsedLine {
        part,
        findings: read_fed(alloc, known, line)?,
    })
}

/// What is found in a line whose project is fed.
fn read_fed(
    alloc: Global,
    known: &mut Revisions,
    line: Line<'_, '_>,
) -> Result<Vec<Finding>, NoMemory>
    ensures settled { IfOk result (λ findings. ClaimsAreSettled
        (claims_by known.old line.entry.kind (data_in line.entry.value.now)) findings.items) }
    ensures learned { OnOk result (known.new
        ≡ patches_after known.old (brought_by known.old line.entry.kind (data_in line.entry.value.now))) }
    ensures kept { OnErr result (known.new ≡ known.old) }
{
    let event = Event::new(alloc, known, line)?;
    let findings = settled(alloc, event.claims()?)?;
    match event.brought() {
        None => {}
        Some(patch) => learn(alloc, known, &patch)?,
    }
    Ok(findings)
}

/// Learns of a patch set that was brought.
fn learn(alloc: Global, known: &mut Revisions, patch: &Patch<'_>) -> Result<(), NoMemory>
    ensures ok { OnOk result (known.new ≡ learned known.old (patch_shown patch.now)) }
    ensures err { OnErr result (known.new ≡ known.old) }
{
    match patch.revision(alloc)? {
        None => Ok(()),
        Some(revision) => known.learn(revision.as_str(), patch.change, patch.set),
    }
}

/// Each claim, settled.
fn settled(alloc: Global, claims: Vec<Claim>) -> Result<Vec<Finding>, NoMemory>
    ensures { IfOk result (λ findings. ClaimsAreSettled claims.items findings.items) }
{
    let mut findings = Vec::with_capacity(alloc, claims.len())?;
    for claim in claims {
        findings.push(claim.settled())?;
    }
    Ok(findings)
}
