//! Parses lines, and hands the results to the taker.

ghost use Rattle.std.specs.Prelude.{◌≡◌, IfOk};
ghost use Rattle.event_feed.specs.Feed.{HandsLast, ended_by, no_event};
ghost use Rattle.event_feed.specs.Steps.{IsHanded, IsLineTaken, IsRefused, IsRefusedLast, IsRestTaken, goes_on};

use super::fault::FeedFault;
use super::progress::Progress;
use super::taker::Taker;
use super::texts::drops;
use gerrit_events::{EventFault, EventKey, Finding, Known, ParsedLine, Part, Projects, read_event};
use lattice_core::NoMemory;
use std::alloc::Global;

/// What a feed knows from the lines so far.
#[derive(Drop)]
pub struct Learned {
    pub known: Known,
    pub progress: Progress,
}

/// Parses a line, and hands over the result. Returns true: there was a line.
pub fn take_line<T: Taker>(
    alloc: Global,
    projects: &Projects,
    number: u64,
    line: &[u8],
    learned: &mut Learned,
    taker: &mut T,
) -> Result<bool, FeedFault>
    ensures { IsLineTaken T.takes projects.now number line.now learned.old.known learned.new.known learned.old.progress
        learned.new.progress taker.old taker.new result }
{
    match read_event(alloc, &mut learned.known, projects, line) {
        Ok(parsed) => hand_over(number, parsed, &mut learned.progress, taker),
        Err(_) => Err(FeedFault::NoMemory),
    }
}

/// Hands over a parsed line, and returns true, unless the feed ends with it.
fn hand_over<T: Taker>(
    number: u64,
    parsed: ParsedLine,
    progress: &mut Progress,
    taker: &mut T,
) -> Result<bool, FeedFault>
    ensures { IsHanded T.takes number parsed progress.old progress.new taker.old taker.new result }
{
    let end = ended_by(&parsed);
    *progress = progress.after(parsed.part);
    match taker.take(number, parsed) {
        Ok(()) => goes_on(end),
        Err(fault) => Err(fault),
    }
}

/// True if the feed goes on, else its fault.
fn goes_on(end: Option<FeedFault>) -> Result<bool, FeedFault>
    ensures { result ≡ goes_on end }
{
    match end {
        None => Ok(true),
        Some(fault) => Err(fault),
    }
}

/// The fault with which the feed ends after this line, if it does.
fn ended_by(parsed: &ParsedLine) -> Option<FeedFault>
    ensures { result ≡ ended_by parsed.now }
{
    if drops(parsed.findings.as_slice()) {
        return Some(FeedFault::Dropped);
    }
    match parsed.part {
        Part::Error => Some(FeedFault::Incomplete),
        _ => None,
    }
}

/// The result for a line that is no event.
fn no_event(alloc: Global) -> Result<ParsedLine, NoMemory>
    ensures { IfOk result (λ parsed. parsed ≡ no_event) }
{
    let mut findings = Vec::new(alloc);
    findings.push(Finding::Refuses(EventFault::BadEvent(EventKey::Line)))?;
    Ok(ParsedLine {
        part: Part::Nothing,
        findings,
    })
}

/// Hands over that a line is no event. Returns true: there was a line.
pub fn refuse_line<T: Taker>(
    alloc: Global,
    number: u64,
    progress: &mut Progress,
    taker: &mut T,
) -> Result<bool, FeedFault>
    ensures { IsRefused T.takes number progress.old progress.new taker.old taker.new result }
{
    match no_event(alloc) {
        Ok(parsed) => hand_over(number, parsed, progress, taker),
        Err(_) => Err(FeedFault::NoMemory),
    }
}

/// Hands over that the bytes after the last LF are no event. Returns `ending`, unless that fails.
pub fn refuse_last<T: Taker>(
    alloc: Global,
    number: u64,
    ending: Result<(), FeedFault>,
    taker: &mut T,
) -> Result<(), FeedFault>
    ensures { IsRefusedLast T.takes number taker.old taker.new ending result }
{
    match no_event(alloc) {
        Ok(parsed) => hand_last(number, parsed, ending, taker),
        Err(_) => Err(FeedFault::NoMemory),
    }
}

/// Hands over the last thing that a source says.
fn hand_last<T: Taker>(
    number: u64,
    parsed: ParsedLine,
    ending: Result<(), FeedFault>,
    taker: &mut T,
) -> Result<(), FeedFault>
    ensures { HandsLast T.takes number parsed taker.old taker.new ending result }
{
    match taker.take(number, parsed) {
        Ok(()) => ending,
        Err(fault) => Err(fault),
    }
}

/// Hands over that the bytes after the last LF are no event, if there are any. Returns `ending`, unless
/// that fails.
pub fn end_lines<T: Taker>(
    alloc: Global,
    number: u64,
    rest: &[u8],
    ending: Result<(), FeedFault>,
    taker: &mut T,
) -> Result<(), FeedFault>
    ensures { IsRestTaken T.takes number rest.now taker.old taker.new ending result }
{
    if rest.is_empty() {
        return ending;
    }
    refuse_last(alloc, number, ending, taker)
}
