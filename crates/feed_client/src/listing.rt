//! Feeds the answer of a query that lists every open change to a site.

ghost use Rattle.std.specs.Prelude.{◌≡◌, IfOk, map, string_bytes};
ghost use Rattle.review_ops.specs.Deed.{change_of};
ghost use Rattle.feed_client.specs.Listing.{AbandonsRest, CompletesSite, TakesAndAbandons};
ghost use Rattle.feed_client.specs.Meeting.{place_at};
ghost use Rattle.feed_client.specs.Taking.{ask_lines, seen_at};

use super::holding::AnswerFeed;
use super::intake::Intake;
use super::meet::offer_all;
use super::noted::Noted;
use super::site_feed::{SiteFeed, add_ask};
use byte_ends::{Drain, Source};
use event_feed::{FeedFault, Input, Taker, feed_lines, send};
use event_filter::vanished;
use gerrit_events::{ParsedLine, Projects};
use lattice_core::NoMemory;
use review_ops::Body;
use std::alloc::Global;

/// A feed that notes what the lines list.
#[derive(Drop)]
pub struct Listing<T: Taker> {
    pub feed: T,
    pub noted: Noted,
}

impl<T: Taker> Taker for Listing<T> {
    ghost use Rattle.std.specs.Prelude.{◌≡◌, ◌⊎◌, Err};
    ghost use Rattle.event_feed.specs.declared.fault.FeedFault.TheVariants.{NoMemory};
    ghost use Rattle.feed_client.specs.Listing.{Notes};

    ghost rests = { λ old result new. T.rests old.feed result new.feed × (new.noted ≡ old.noted) };

    ghost takes = { λ old number parsed result new.
        (Notes number parsed.part old.noted new.noted × T.takes old.feed number parsed result new.feed)
        ⊎ ((result ≡ Err NoMemory) × (new.feed ≡ old.feed)) };

    fn rest(&mut self) -> Result<(), FeedFault> {
        self.feed.rest()
    }

    fn take(&mut self, number: u64, parsed: ParsedLine) -> Result<(), FeedFault> {
        match self.noted.note(number, parsed.part) {
            Ok(()) => self.feed.take(number, parsed),
            Err(_) => Err(FeedFault::NoMemory),
        }
    }
}

/// Feeds the answer of a query to a site, as `feed_answer` does, where it lists every open change: once what it says is
/// taken in, each change that the record has as NEW and that no row lists is asked for, since it may be merged, and then
/// abandoned, in the order of their numbers. Where a line of the answer couldn't be read nothing is asked for or
/// abandoned, since it may have listed a change. What the site refuses of these abandons is reported with the number of
/// the last line. Refusals: those of `feed_answer`; 9 `Incomplete` also where a line couldn't be read. It costs what
/// `feed_answer` costs, and O(n) for n changes of the record.
pub fn complete_site<S: Source, T: Intake, O: Drain, E: Drain>(
    alloc: Global,
    projects: &Projects,
    source: &mut S,
    listing: &mut Listing<AnswerFeed<T, O, E>>,
) -> Result<(), FeedFault>
    ensures { CompletesSite (λ listing. listing.feed) (λ listing. listing.noted) (λ answer. answer.feed)
        (λ answer. answer.held.items)
        (λ feed. seen_at feed.bases (place_at feed.site feed.state (E.taken feed.errors) (E.failed feed.errors))
        (O.taken feed.output) (O.failed feed.output))
        T.replies T.answers projects.now
        (S.left source.old) (S.failed source.old) listing.old (S.left source.new) (S.failed source.new) listing.new result }
{
    match feed_lines(alloc, Input::Answer, projects, source, listing) {
        Ok(()) => end_listing(listing),
        Err(fault) => Err(fault),
    }
}

/// Takes what has waited, and then abandons what isn't listed.
fn end_listing<T: Intake, O: Drain, E: Drain>(
    listing: &mut Listing<AnswerFeed<T, O, E>>,
) -> Result<(), FeedFault>
    ensures { TakesAndAbandons (λ listing. listing.feed) (λ listing. listing.noted) (λ answer. answer.feed)
        (λ answer. answer.held.items)
        (λ feed. seen_at feed.bases (place_at feed.site feed.state (E.taken feed.errors) (E.failed feed.errors))
        (O.taken feed.output) (O.failed feed.output))
        T.replies T.answers listing.old listing.new result }
{
    match listing.feed.take_held() {
        Ok(()) => abandon_rest(&listing.noted, &mut listing.feed.feed),
        Err(fault) => Err(fault),
    }
}

/// Asks for each change that is NEW and isn't listed, and offers its abandon.
fn abandon_rest<T: Intake, O: Drain, E: Drain>(
    noted: &Noted,
    feed: &mut SiteFeed<T, O, E>,
) -> Result<(), FeedFault>
    ensures { AbandonsRest T.replies noted.now
        (seen_at feed.old.bases (place_at feed.old.site feed.old.state (E.taken feed.old.errors) (E.failed feed.old.errors))
        (O.taken feed.old.output) (O.failed feed.old.output))
        (seen_at feed.new.bases (place_at feed.new.site feed.new.state (E.taken feed.new.errors) (E.failed feed.new.errors))
        (O.taken feed.new.output) (O.failed feed.new.output))
        result }
{
    if !noted.is_sure {
        return Err(FeedFault::Incomplete);
    }
    let Ok(bodies) = vanished(feed.alloc, &feed.state, &noted.changes) else {
        return Err(FeedFault::NoMemory);
    };
    let Ok(text) = lines_of(feed.alloc, bodies.as_slice()) else {
        return Err(FeedFault::NoMemory);
    };
    match send(&mut feed.output, text.as_str()) {
        Ok(()) => offer_all(
            feed.alloc,
            noted.last,
            bodies,
            &mut feed.site,
            &mut feed.state,
            &mut feed.errors,
        ),
        Err(fault) => Err(fault),
    }
}

/// The lines that ask for the changes of bodies.
fn lines_of(alloc: Global, bodies: &[Body]) -> Result<String, NoMemory>
    ensures { IfOk result (λ text. string_bytes text ≡ ask_lines (map change_of bodies.now)) }
{
    let mut text = String::new(alloc);
    for body in bodies {
        add_ask(&mut text, body.change())?;
    }
    Ok(text)
}
