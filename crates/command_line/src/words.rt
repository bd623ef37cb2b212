//! What the words of a command line ask for.

ghost use Rattle.std.specs.Prelude.{IfOk, Some, map};
ghost use Rattle.command_line.specs.Asking.{WordsAsk, IsAskedByWords, IsUsage, Means};
ghost use Rattle.command_line.specs.Values.{Finds};
ghost use Rattle.command_tree.specs.Rows.{rows_in};

use super::addresses::{WrongWord, wrong_address};
use super::asked::Asked;
use super::enqueues::enqueue_in;
use super::feeds::{events_in, lacks_target};
use super::files::{
    check_in, footers_in, graph_in, merge_in, ready_in, recover_in, simulate_in, why_in,
};
use super::queries::queries_in;
use super::sites::{mode_in, printing_in, serve_in};
use command_tree::{Parsed, Values, parse};
use std::alloc::{AllocError, Global};
use std::convert::AsStr;

/// What an item has to be.
const ITEM_LIMITS: &str =
    "CHANGE and SET are numbers from 0 to 4294967295\n\nFor more information, try '--help'.\n";

/// What is wrong where neither a start nor a journal is named.
const NO_START: &str =
    "error: without --journal a site needs --start\n\nFor more information, try '--help'.\n";

/// What a site may print.
const PRINTINGS: &str =
    "[possible values: report, changes, none]\n\nFor more information, try '--help'.\n";

/// Who may connect to a site's sockets.
const MODES: &str = "[possible values: 600, 660]\n\nFor more information, try '--help'.\n";

/// What a usage error ends with.
const MORE: &str = "\n\nFor more information, try '--help'.\n";

/// What is wrong where `--without` names no site with a start.
const NO_ROW: &str =
    "error: --without needs SITE,START, numbers from 0 to 65535 and from 0 to 4294967295\n\nFor more information, try '--help'.\n";

/// What is wrong where two options differ about what Gerrit's lines are.
const TWO_ANSWERS: &str =
    "error: the argument '--query' cannot be used with '--complete'\n\nFor more information, try '--help'.\n";

/// What is wrong where an option wants a site, and none is named.
const NO_TARGET: &str =
    "error: --complete and --gate need --to\n\nFor more information, try '--help'.\n";

/// Reads the words that follow the program's name: a command is answered only where `clap` finds no fault in them.
/// `Usage` is a usage error: `clap` finds a fault other than a wish for help or for the version, an item or an address
/// is invalid, an address on another machine is named without a file of keys, a word names nothing that a site prints
/// or no mode of its sockets, a site has neither a start nor a journal, `--without` names no site with a start, two
/// options of a feed exclude each other, or one of them needs a site that isn't named. Its text, and those of `Help`
/// and `Version`, are `clap`'s, but for the last nine. It costs O(bytes of the words).
pub fn read_words<'a, S: AsStr>(alloc: Global, words: &'a [S]) -> Asked<'a>
    ensures { WordsAsk (map S.text words.entry.now) result }
{
    match parse(alloc, words) {
        Parsed::Command(name, values) => asked_of(alloc, name, &values),
        Parsed::Help(text) => Asked::Help(text),
        Parsed::Version(text) => Asked::Version(text),
        Parsed::Usage(text) => Asked::Usage(text),
        Parsed::NoMemory => Asked::NoMemory,
    }
}

/// What a command with these values asks for.
fn asked_of<'a>(alloc: Global, name: &str, values: &Values<'a>) -> Asked<'a>
    ensures { Means (Some (name.now, rows_in values.now)) result }
{
    match named(alloc, name, values) {
        Ok(Some(asked)) => asked,
        Ok(None) => misused(alloc, name, values),
        Err(_) => Asked::NoMemory,
    }
}

/// The same, where the values say what is asked.
fn named<'a>(
    alloc: Global,
    name: &str,
    values: &Values<'a>,
) -> Result<Option<Asked<'a>>, AllocError>
    ensures { IfOk result (Finds (IsAskedByWords (Some (name.now, rows_in values.now)))) }
{
    match name {
        "ready" => Ok(ready_in(values)),
        "why" => Ok(why_in(values)),
        "graph" => Ok(graph_in(values)),
        "merge" => Ok(merge_in(values)),
        "footers" => Ok(footers_in(values)),
        "check" => Ok(check_in(values)),
        "simulate" => Ok(simulate_in(values)),
        "serve" => serve_in(alloc, values),
        "recover" => recover_in(alloc, values),
        "events" => events_in(alloc, values),
        "queries" => Ok(queries_in(values)),
        "enqueue" => Ok(enqueue_in(values)),
        _ => Ok(None),
    }
}

/// The usage error of values in which `clap` found no fault: an invalid item or address, a word that names nothing to
/// print or no mode, a site without a start, an invalid pair of a site and a start, or options of a feed that exclude
/// each other.
fn misused<'a>(alloc: Global, name: &str, values: &Values<'_>) -> Asked<'a>
    ensures { IsUsage result }
{
    if let Some(item) = values.text("CHANGE[,SET]") {
        return usage(no_item(alloc, "<CHANGE[,SET]>", item));
    }
    if let Some(item) = values.text("item") {
        return usage(no_item(alloc, "--item <CHANGE[,SET]>", item));
    }
    if let Some(word) = values.text("print")
        && printing_in(values).is_none()
    {
        return usage(no_printing(alloc, word));
    }
    if let Some(word) = values.text("mode")
        && mode_in(values).is_none()
    {
        return usage(no_mode(alloc, word));
    }
    if let Some(wrong) = wrong_address(values) {
        return usage(no_address(alloc, &wrong));
    }
    let text = match name {
        "serve" => NO_START,
        "recover" => NO_ROW,
        _ if lacks_target(values) => NO_TARGET,
        _ => TWO_ANSWERS,
    };
    usage(String::from_str(alloc, text))
}

/// The usage error of an invalid item, which this argument names.
fn no_item(alloc: Global, argument: &str, item: &str) -> Result<String, AllocError> {
    format!(in alloc; "error: invalid value '{item}' for '{argument}': {ITEM_LIMITS}")
}

/// The usage error of a word that says nothing of what is printed.
fn no_printing(alloc: Global, word: &str) -> Result<String, AllocError> {
    format!(in alloc; "error: invalid value '{word}' for '--print <WHAT>'\n  {PRINTINGS}")
}

/// The usage error of a word that says nothing of who may connect.
fn no_mode(alloc: Global, word: &str) -> Result<String, AllocError> {
    format!(in alloc; "error: invalid value '{word}' for '--mode <MODE>'\n  {MODES}")
}

/// The usage error of a word that is no address, or needs a file of keys.
fn no_address(alloc: Global, wrong: &WrongWord<'_>) -> Result<String, AllocError> {
    let WrongWord {
        argument,
        word,
        wanted,
    } = wrong;
    format!(in alloc; "error: invalid value '{word}' for '{argument}': {wanted}{MORE}")
}

/// What is wrong with the words, in a text of our own.
fn usage<'a>(text: Result<String, AllocError>) -> Asked<'a>
    ensures { IsUsage result }
{
    match text {
        Ok(text) => Asked::Usage(text),
        Err(_) => Asked::NoMemory,
    }
}
