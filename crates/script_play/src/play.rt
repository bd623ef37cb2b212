//! Plays the steps of a script in a world of sites.

ghost use Rattle.std.specs.Prelude.{◌≡◌, ◌⊎◌, IfOk, MatchOption};
ghost use Rattle.world_core.specs.Numbered.{numbered};
ghost use Rattle.script_play.specs.Playing.{PlaysEvent, PlaysStep, ShowsFront, ShowsReport, ShowsState, bytes_of};
ghost use Rattle.script_play.specs.Playing.{no_site};

use super::texts::{NO_MEMORY, NO_SITE, Text, answer_line, front_line, report_text, state_text};
use gate_rules::Gate;
use lattice_core::NoMemory;
use script_text::Step;
use std::alloc::Global;
use world_core::{Event, World};

/// Plays a step in a world, as `World::step` lets events happen, and answers what it prints. `NoMemory` is answered
/// where memory was refused for the text; the event has then happened all the same. It costs what the event costs, and
/// O(text).
pub fn play_step(alloc: Global, world: &mut World, step: Step<'_>) -> Result<Text, NoMemory>
    ensures { IfOk result (λ text. PlaysStep world.old step.entry (bytes_of text) world.new) }
{
    match step {
        Step::Happens(event) => play_event(alloc, world, event),
        Step::SendTo { site, receiver } => send_to(alloc, world, site, receiver),
        Step::State { site } => Ok(state_at(alloc, world, site)),
        Step::Front { site } => Ok(front_at(alloc, world, site)),
        Step::Ready { site, gate } => Ok(report_at(alloc, world, site, gate)),
    }
}

/// Lets an event happen.
fn play_event(alloc: Global, world: &mut World, event: Event) -> Result<Text, NoMemory>
    ensures { IfOk result (λ text. PlaysEvent world.old event (bytes_of text) world.new) }
{
    let answer = world.step(event);
    let line = answer_line(alloc, &answer)?;
    Ok(Text::Made(line.into_bytes()))
}

/// A site packs what the front of another lacks, as it is now. Where that one isn't there, or memory doesn't suffice
/// for its front, this is answered instead.
fn send_to(alloc: Global, world: &mut World, site: u16, receiver: u16) -> Result<Text, NoMemory>
    ensures { IfOk result (λ text. PlaysStep world.old (Step.SendTo site receiver) (bytes_of text) world.new) }
{
    let Some(replica) = world.replica(receiver) else {
        return Ok(Text::Fixed(NO_SITE));
    };
    let Ok(front) = replica.front() else {
        return Ok(Text::Fixed(NO_MEMORY));
    };
    play_event(alloc, world, Event::Send { site, front })
}

/// The state text of a site.
fn state_at(alloc: Global, world: &World, site: u16) -> Text
    ensures { MatchOption (numbered world.now.sites site) (bytes_of result ≡ no_site)
        (λ at. ShowsState at.journal (bytes_of result)) }
{
    match world.replica(site) {
        Some(replica) => state_text(alloc, replica),
        None => Text::Fixed(NO_SITE),
    }
}

/// The text of a site's front, on a line.
fn front_at(alloc: Global, world: &World, site: u16) -> Text
    ensures { MatchOption (numbered world.now.sites site) (bytes_of result ≡ no_site)
        (λ at. ShowsFront at.journal (bytes_of result)) }
{
    match world.replica(site) {
        Some(replica) => front_line(alloc, replica),
        None => Text::Fixed(NO_SITE),
    }
}

/// The report of a site under a gate.
fn report_at(alloc: Global, world: &World, site: u16, gate: &Gate) -> Text
    ensures { MatchOption (numbered world.now.sites site) (bytes_of result ≡ no_site)
        (λ at. ShowsReport gate.now at.journal (bytes_of result)) }
{
    match world.replica(site) {
        Some(replica) => report_text(alloc, replica, gate),
        None => Text::Fixed(NO_SITE),
    }
}
