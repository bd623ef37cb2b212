//! What the arguments of `events` say.

ghost use Rattle.std.specs.Prelude.{◌≡◌, IfNone, IfOk, IfSome, MatchBool, map, string_bytes};
ghost use Rattle.command_line.specs.Asking.{AreFeedOptions, GivesAnswer, HasTarget, ArgumentsSay, events};
ghost use Rattle.command_line.specs.Values.{Finds, GivesTexts};
ghost use Rattle.command_line.specs.declared.asked.EventWords.{EventWords};
ghost use Rattle.command_tree.specs.Rows.{rows_in};

use super::addresses::{any_peer_in, lacks_keys};
use super::asked::{Answer, Asked, EventWords};
use command_tree::Values;
use std::alloc::{AllocError, Global};

/// `events [--to ADDRESS] [--keys FILE] [--query | --complete] [--project NAME].. [--projects FILE] [--gate GATE]`
pub fn events_in<'a>(alloc: Global, values: &Values<'a>) -> Result<Option<Asked<'a>>, AllocError>
    ensures { IfOk result (Finds (ArgumentsSay events (rows_in values.now))) }
{
    if lacks_target(values) || lacks_keys(values) {
        return Ok(None);
    }
    let projects = names_in(alloc, values, "project")?;
    match fed_in(values, projects) {
        Some(words) => Ok(Some(Asked::Events(words))),
        None => Ok(None),
    }
}

/// What a feed of these projects is run with.
fn fed_in<'a>(values: &Values<'a>, projects: Vec<String>) -> Option<EventWords<'a>>
    ensures some { IfSome result (λ words. AreFeedOptions (rows_in values.now) words × (words.projects ≡ projects)) }
    ensures none { IfNone result ((words : EventWords) → ¬ AreFeedOptions (rows_in values.now) words) }
{
    let to = any_peer_in(values, "to")?;
    let answer = answer_in(values)?;
    Some(EventWords {
        to,
        keys: values.text("keys"),
        answer,
        projects,
        projects_file: values.text("projects"),
        gate: values.text("gate"),
    })
}

/// What Gerrit's lines are; none where two options differ about it.
fn answer_in(values: &Values<'_>) -> Option<Answer>
    ensures { Finds (GivesAnswer (rows_in values.now)) result }
{
    match (values.flag("query"), values.flag("complete")) {
        (false, false) => Some(Answer::Stream),
        (true, false) => Some(Answer::Query),
        (false, true) => Some(Answer::Complete),
        (true, true) => None,
    }
}

/// Whether an option is there that wants a site, and no site is.
pub fn lacks_target(values: &Values<'_>) -> bool
    ensures { MatchBool result (¬ HasTarget (rows_in values.now)) (HasTarget (rows_in values.now)) }
{
    if values.text("to").is_some() {
        return false;
    }
    values.flag("complete") || values.text("gate").is_some()
}

/// The texts of an option that may be there more than once.
pub fn names_in(alloc: Global, values: &Values<'_>, option: &str) -> Result<Vec<String>, AllocError>
    ensures { IfOk result (λ names. GivesTexts (rows_in values.now) option.now (map string_bytes names.items)) }
{
    match values.texts(option) {
        None => Ok(Vec::new(alloc)),
        Some(texts) => copies_of(alloc, texts),
    }
}

/// Copies of texts.
fn copies_of(alloc: Global, texts: &[&str]) -> Result<Vec<String>, AllocError>
    ensures { IfOk result (λ copies. map string_bytes copies.items ≡ map (λ text. text.now) texts.now) }
{
    let mut copies = Vec::new(alloc);
    for text in texts {
        copies.push(String::from_str(alloc, text)?)?;
    }
    Ok(copies)
}
