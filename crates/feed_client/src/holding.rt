//! Feeds the answer to a query to a site: of each row what lowers an item as it comes, and the rest once the answer is
//! whole.

ghost use Rattle.std.specs.Prelude.{◌≡◌, IfOk, []};
ghost use Rattle.feed_client.specs.Holding.{AnswersSite, IsParted, TakesHeld};
ghost use Rattle.feed_client.specs.InTurn.{InTurn};
ghost use Rattle.feed_client.specs.Meeting.{place_at};
ghost use Rattle.feed_client.specs.Taking.{seen_at};

use super::intake::Intake;
use super::site_feed::SiteFeed;
use byte_ends::{Drain, Source};
use event_feed::{FeedFault, Input, Taker, feed_lines};
use event_filter::parted;
use gerrit_events::{ParsedLine, Projects};
use lattice_core::NoMemory;
use state_core::State;
use std::alloc::Global;
use std::mem;

/// A line of an answer that waits until the answer is whole: its number, and what was found in it.
#[derive(Drop)]
pub struct HeldLine {
    pub number: u64,
    pub parsed: ParsedLine,
}

/// A feed of an answer: the feed of its site, and the lines that wait.
#[derive(Drop)]
pub struct AnswerFeed<T: Intake, O: Drain, E: Drain> {
    pub feed: SiteFeed<T, O, E>,
    pub held: Vec<HeldLine>,
}

impl<T: Intake, O: Drain, E: Drain> AnswerFeed<T, O, E> {
    /// A feed of an answer of which nothing has come yet.
    pub fn new(feed: SiteFeed<T, O, E>) -> AnswerFeed<T, O, E>
        ensures same { result.feed ≡ feed }
        ensures none { result.held.items ≡ [] }
    {
        let held = Vec::new(feed.alloc);
        AnswerFeed { feed, held }
    }

    /// Takes the lines that have waited, one after the other. None waits then.
    pub fn take_held(&mut self) -> Result<(), FeedFault>
        ensures taken { TakesHeld
            (λ feed. seen_at feed.bases (place_at feed.site feed.state (E.taken feed.errors) (E.failed feed.errors))
            (O.taken feed.output) (O.failed feed.output))
            T.replies self.old.held.items self.old.feed self.new.feed result }
        ensures none { self.new.held.items ≡ [] }
    {
        let held = mem::replace(&mut self.held, Vec::new(self.feed.alloc));
        take_lines(held, &mut self.feed)
    }
}

impl<T: Intake, O: Drain, E: Drain> Taker for AnswerFeed<T, O, E> {
    ghost use Rattle.std.specs.Prelude.{◌≡◌};
    ghost use Rattle.feed_client.specs.Holding.{AnswerRests, AnswerTakes};
    ghost use Rattle.feed_client.specs.Meeting.{place_at};
    ghost use Rattle.feed_client.specs.Taking.{seen_at};

    ghost rests = { AnswerRests (λ whole. whole.feed) (λ whole. whole.held.items)
        (λ feed. seen_at feed.bases (place_at feed.site feed.state (E.taken feed.errors) (E.failed feed.errors))
        (O.taken feed.output) (O.failed feed.output))
        T.replies T.answers };

    ghost takes = { AnswerTakes (λ whole. whole.feed) (λ whole. whole.held.items)
        (λ feed. seen_at feed.bases (place_at feed.site feed.state (E.taken feed.errors) (E.failed feed.errors))
        (O.taken feed.output) (O.failed feed.output))
        T.replies T.answers };

    fn rest(&mut self) -> Result<(), FeedFault> {
        self.feed.rest()
    }

    fn take(&mut self, number: u64, parsed: ParsedLine) -> Result<(), FeedFault> {
        let Ok((first, later)) = parted_line(self.feed.alloc, &self.feed.state, parsed) else {
            return Err(FeedFault::NoMemory);
        };
        let line = HeldLine {
            number,
            parsed: later,
        };
        match self.held.push(line) {
            Ok(()) => self.feed.take(number, first),
            Err(_) => Err(FeedFault::NoMemory),
        }
    }
}

/// A line in two parts: what is processed at once, and what waits.
fn parted_line(
    alloc: Global,
    state: &State,
    parsed: ParsedLine,
) -> Result<(ParsedLine, ParsedLine), NoMemory>
    ensures { IfOk result (λ lines. IsParted state.now parsed lines.0 lines.1) }
{
    let part = parsed.part;
    let (first, later) = parted(alloc, state, parsed.findings)?;
    let first = ParsedLine {
        part,
        findings: first,
    };
    let later = ParsedLine {
        part,
        findings: later,
    };
    Ok((first, later))
}

/// Takes lines, one after the other.
fn take_lines<F: Taker>(lines: Vec<HeldLine>, feed: &mut F) -> Result<(), FeedFault>
    ensures { InTurn (λ line old new result. F.takes old line.number line.parsed result new) lines.items feed.old
        feed.new result }
{
    for line in lines {
        feed.take(line.number, line.parsed)?;
    }
    Ok(())
}

/// Feeds the answer to a query to a site, in two steps. Of each row that comes it offers what lowers an item
/// (`event_filter::parted`) and reports the losses, as `feed_site` does; the rest of the rows waits, in memory, until the
/// answer is whole, and is then offered as `feed_site` does, row by row. So a veto is taken in before the approvals of
/// all rows, and an answer that breaks off approves nothing. Patch sets wait, too: an item may be ready for a moment
/// before a later row brings a new patch set of what it depends on. Refusals: those of `feed_site`; 9 `Incomplete`,
/// Gerrit answered with an error, or the source ended within the answer or before it. It costs what `feed_site` costs,
/// and memory for all that waits.
pub fn feed_answer<S: Source, T: Intake, O: Drain, E: Drain>(
    alloc: Global,
    projects: &Projects,
    source: &mut S,
    answer: &mut AnswerFeed<T, O, E>,
) -> Result<(), FeedFault>
    ensures { AnswersSite (λ whole. whole.feed) (λ whole. whole.held.items)
        (λ feed. seen_at feed.bases (place_at feed.site feed.state (E.taken feed.errors) (E.failed feed.errors))
        (O.taken feed.output) (O.failed feed.output))
        T.replies T.answers projects.now (S.left source.old) (S.failed source.old) answer.old (S.left source.new)
        (S.failed source.new) answer.new result }
{
    match feed_lines(alloc, Input::Answer, projects, source, answer) {
        Ok(()) => answer.take_held(),
        Err(fault) => Err(fault),
    }
}
