//! The lines that are written for the findings of a line.

ghost use Rattle.std.specs.Prelude.{◌≡◌, ◌++◌, IfOk, OnOk, string_bytes};
ghost use Rattle.event_feed.specs.Texts.{bad_event_words, body_line, drops, fault_line, fault_words, is_drop};
ghost use Rattle.event_feed.specs.Texts.{refusal_line, refusal_lines, shown_line, take_line, take_lines};

use gerrit_events::{EventFault, Finding};
use lattice_core::NoMemory;
use op_text::write_body;
use refusal_line::{Part, refusal_line};
use review_ops::{Body, Draft};
use std::alloc::{AllocError, Global};

/// What a line takes beside its body.
const TAKE_ROOM: usize = 6;

/// The `take` lines of the bodies.
pub fn take_lines(alloc: Global, findings: &[Finding]) -> Result<String, NoMemory>
    ensures { IfOk result (λ text. string_bytes text ≡ take_lines findings.now) }
{
    let mut text = String::new(alloc);
    for finding in findings {
        add_take_line(&mut text, alloc, finding)?;
    }
    Ok(text)
}

/// Adds the line of what is found, where that brings a body.
fn add_take_line(text: &mut String, alloc: Global, finding: &Finding) -> Result<(), NoMemory>
    ensures { OnOk result (string_bytes text.new ≡ string_bytes text.old ++ take_line finding.now) }
{
    match finding {
        Finding::Brings(body) => add_body_line(text, alloc, body),
        Finding::Shows(body) => add_shown_line(text, alloc, body),
        Finding::Lists(_) | Finding::Refuses(_) => Ok(()),
    }
}

/// Adds the line of what an event shows, if that is a patch set.
fn add_shown_line(text: &mut String, alloc: Global, body: &Body) -> Result<(), NoMemory>
    ensures { OnOk result (string_bytes text.new ≡ string_bytes text.old ++ shown_line body.now) }
{
    match body.draft() {
        Draft::PatchSet { .. } => add_body_line(text, alloc, body),
        _ => Ok(()),
    }
}

/// Adds the line of a body.
fn add_body_line(text: &mut String, alloc: Global, body: &Body) -> Result<(), NoMemory>
    ensures { OnOk result (string_bytes text.new ≡ string_bytes text.old ++ body_line body.now) }
{
    let written = write_body(alloc, body)?;
    text.reserve(written.len().saturating_add(TAKE_ROOM))?;
    text.push_str("take ")?;
    text.push_str(written.as_str())?;
    text.push_str("\n")?;
    Ok(())
}

/// The lines of what is refused of the line of this number.
pub fn refusal_lines(alloc: Global, number: u64, findings: &[Finding]) -> Result<String, NoMemory>
    ensures { IfOk result (λ text. string_bytes text ≡ refusal_lines number findings.now) }
{
    let mut text = String::new(alloc);
    for finding in findings {
        add_refusal_line(&mut text, alloc, number, finding)?;
    }
    Ok(text)
}

/// Adds the line of what is found in the line of this number, where that is refused.
fn add_refusal_line(
    text: &mut String,
    alloc: Global,
    number: u64,
    finding: &Finding,
) -> Result<(), NoMemory>
    ensures { OnOk result (string_bytes text.new ≡ string_bytes text.old ++ refusal_line number finding.now) }
{
    match finding {
        Finding::Refuses(fault) => {
            let line = fault_line(alloc, number, *fault)?;
            text.push_str(line.as_str())?;
            Ok(())
        }
        Finding::Brings(_) | Finding::Shows(_) | Finding::Lists(_) => Ok(()),
    }
}

/// The line of what is refused of the line of this number.
pub fn fault_line(alloc: Global, number: u64, fault: EventFault) -> Result<String, NoMemory>
    ensures { IfOk result (λ text. string_bytes text ≡ fault_line number fault) }
{
    let words = fault_words(alloc, number, fault)?;
    let line = refusal_line(alloc, Part::Events, fault.number(), words.as_str())?;
    Ok(line)
}

/// The words of what is refused of the line of this number: the fault's name, that number, and the key of a bad event.
fn fault_words(alloc: Global, number: u64, fault: EventFault) -> Result<String, AllocError>
    ensures { IfOk result (λ words. string_bytes words ≡ fault_words number fault) }
{
    match fault {
        EventFault::BadEvent(key) => bad_event_words(alloc, number, key.text()),
        EventFault::Dropped => format!(in alloc; "Dropped {number}"),
    }
}

/// The words of a bad event, with the key that it is refused for.
fn bad_event_words(alloc: Global, number: u64, key: &str) -> Result<String, AllocError>
    ensures { IfOk result (λ words. string_bytes words ≡ bad_event_words number key.now) }
{
    let mut words = format!(in alloc; "BadEvent {number} ")?;
    words.push_str(key)?;
    Ok(words)
}

/// Whether events were dropped.
pub fn drops(findings: &[Finding]) -> bool
    ensures { result ≡ drops findings.now }
{
    findings.iter().any(|finding| is_drop(finding))
}

/// Whether the finding is that events were dropped.
fn is_drop(finding: &Finding) -> bool
    ensures { result ≡ is_drop finding.now }
{
    match finding {
        Finding::Refuses(EventFault::Dropped) => true,
        _ => false,
    }
}
