//! Feeds the lines of a source to a site.

ghost use Rattle.std.specs.Prelude.{◌≡◌, ◌++◌, IfOk, OnOk, string_bytes};
ghost use Rattle.event_feed.specs.declared.progress.Input.TheVariants.{Stream};
ghost use Rattle.feed_client.specs.Meeting.{place_at};
ghost use Rattle.feed_client.specs.Taking.{FeedsSite, ask_line, asked_line, asked_lines, is_event_of, seen_at};

use super::intake::Intake;
use super::meet::meet_all;
use super::pull::pull_all;
use byte_ends::{Drain, Source};
use event_feed::{FeedFault, Input, Taker, feed_lines, send};
use event_filter::{asked, lowering_first};
use footer_text::Bases;
use gerrit_events::{ParsedLine, Part, Projects};
use lattice_core::NoMemory;
use state_core::State;
use std::alloc::Global;
use std::collections::BTreeSet;

/// A feed of a site: the bases of footers, the state that it keeps of the site's record, the site, the output for `ask`
/// and `need` lines, and standard error.
#[derive(Drop)]
pub struct SiteFeed<T: Intake, O: Drain, E: Drain> {
    pub alloc: Global,
    pub bases: Option<Bases>,
    pub state: State,
    pub site: T,
    pub output: O,
    pub errors: E,
}

impl<T: Intake, O: Drain, E: Drain> Taker for SiteFeed<T, O, E> {
    ghost use Rattle.feed_client.specs.Taking.{LearnsNews, TakesLine};

    ghost rests = { λ old result new. LearnsNews T.answers
        (seen_at old.bases (place_at old.site old.state (E.taken old.errors) (E.failed old.errors)) (O.taken old.output)
        (O.failed old.output))
        (seen_at new.bases (place_at new.site new.state (E.taken new.errors) (E.failed new.errors)) (O.taken new.output)
        (O.failed new.output))
        result };

    ghost takes = { λ old number parsed result new. TakesLine T.replies number parsed
        (seen_at old.bases (place_at old.site old.state (E.taken old.errors) (E.failed old.errors)) (O.taken old.output)
        (O.failed old.output))
        (seen_at new.bases (place_at new.site new.state (E.taken new.errors) (E.failed new.errors)) (O.taken new.output)
        (O.failed new.output))
        result };

    fn rest(&mut self) -> Result<(), FeedFault> {
        match pull_all(&mut self.site, &mut self.state) {
            Ok(_count) => Ok(()),
            Err(fault) => Err(fault),
        }
    }

    fn take(&mut self, number: u64, parsed: ParsedLine) -> Result<(), FeedFault> {
        let Ok(asked) = asked(self.alloc, &self.state, self.bases.as_ref(), &parsed) else {
            return Err(FeedFault::NoMemory);
        };
        let Ok(text) = asked_lines(self.alloc, parsed.part, &asked) else {
            return Err(FeedFault::NoMemory);
        };
        let Ok(findings) = lowering_first(self.alloc, &self.state, parsed.findings) else {
            return Err(FeedFault::NoMemory);
        };
        match send(&mut self.output, text.as_str()) {
            Ok(()) => meet_all(
                self.alloc,
                number,
                findings,
                &mut self.site,
                &mut self.state,
                &mut self.errors,
            ),
            Err(fault) => Err(fault),
        }
    }
}

/// Reads the lines of a stream of events, as `event_feed::feed_lines` does, and offers the bodies of each to a site, first what
/// lowers a score or abandons a change and then all in order, except what the state says already. What the site takes in is taken into the state,
/// too, and so is, before more of the source is read, what others brought to the site. The changes that have to be
/// queried because of a line are written to the output before its bodies are offered, by number: as `ask N` where the
/// line is an event of change N, and as `need N` otherwise. A loss of line n, counted from 1, is reported on standard
/// error: by the line itself (`reviewgate: events 1 BadEvent n KEY`, `reviewgate: events 2 Dropped n`), for the record
/// (`reviewgate: events 1 BadEvent n status`: an abandon or a restore of a change that is merged) or by the site
/// (`reviewgate: events 6 Refused n NUMBER NAME`). Refusals: those of `feed_lines`; 4 `WriteFault`, an output failed; 5
/// `NoMemory`; 8 `Ended`, no answer came from the site; 12 `NotAllowed`, the key of the connection may only read; 13
/// `NoEnd`, the site has more than it answers. It costs O(n) for n bytes that are read and written, and O(log m) for
/// each body, for m changes, patch sets and votes of the state.
pub fn feed_site<S: Source, T: Intake, O: Drain, E: Drain>(
    alloc: Global,
    projects: &Projects,
    source: &mut S,
    feed: &mut SiteFeed<T, O, E>,
) -> Result<(), FeedFault>
    ensures { FeedsSite
        (λ feed. seen_at feed.bases (place_at feed.site feed.state (E.taken feed.errors) (E.failed feed.errors))
        (O.taken feed.output) (O.failed feed.output))
        T.replies T.answers Stream projects.now (S.left source.old) (S.failed source.old) feed.old (S.left source.new)
        (S.failed source.new) feed.new result }
{
    feed_lines(alloc, Input::Stream, projects, source, feed)
}

/// The lines that ask for changes where a line is met.
fn asked_lines(alloc: Global, part: Part, changes: &BTreeSet<u32>) -> Result<String, NoMemory>
    ensures { IfOk result (λ text. string_bytes text ≡ asked_lines part changes.now.keys) }
{
    let mut text = String::new(alloc);
    for change in changes {
        add_asked(&mut text, part, *change)?;
    }
    Ok(text)
}

/// Adds the line that asks for a change where a line is met: `need` says that the line isn't an event of the change.
fn add_asked(text: &mut String, part: Part, change: u32) -> Result<(), NoMemory>
    ensures { OnOk result (string_bytes text.new ≡ string_bytes text.old ++ asked_line part change) }
{
    if is_event_of(part, change) {
        return add_ask(text, change);
    }
    write!(text, "need {change}\n")?;
    Ok(())
}

/// Whether the line is an event of a change.
fn is_event_of(part: Part, change: u32) -> bool
    ensures { result ≡ is_event_of part change }
{
    match part {
        Part::Event(Some(number)) => number == change,
        _ => false,
    }
}

/// Adds the line that asks for a change.
pub fn add_ask(text: &mut String, change: u32) -> Result<(), NoMemory>
    ensures { OnOk result (string_bytes text.new ≡ string_bytes text.old ++ ask_line change) }
{
    write!(text, "ask {change}\n")?;
    Ok(())
}
