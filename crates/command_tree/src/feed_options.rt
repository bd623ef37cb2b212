//! The arguments of `events`.

ghost use Rattle.command_tree.specs.Building.{Builds};
ghost use Rattle.command_tree.specs.Commands.{events_app, feeding_app};

use super::arguments::{flag, option, several};
use super::building::Building;
use std::alloc::Global;

/// `events [--to ADDRESS] [--keys FILE] [--query | --complete] [--project NAME].. [--projects FILE] [--gate GATE]`
pub fn events_command<'a>(alloc: Global) -> Building<'a>
    ensures { Builds events_app result }
{
    let project = several(
        alloc,
        "project",
        "NAME",
        "Feeds only the changes of this project; may be repeated",
    );
    let projects = option(
        alloc,
        "projects",
        "FILE",
        "A file of project names, one per line, or - for standard input; # begins a comment",
    );
    let gate = option(
        alloc,
        "gate",
        "GATE",
        "The gate file whose bases say which changes a Depends-On names, so that unknown ones are asked for",
    );
    let feeding = feeding_command(alloc);
    feeding.with(project).with(projects).with(gate)
}

/// The command with where Gerrit's lines go to, and what they are.
fn feeding_command<'a>(alloc: Global) -> Building<'a>
    ensures { Builds feeding_app result }
{
    let to = option(
        alloc,
        "to",
        "ADDRESS",
        "The site that is fed: a port on 127.0.0.1, the path of a Unix socket, or NAME@HOST:PORT by the key NAME; without it the lines of a session are printed",
    );
    let keys = option(
        alloc,
        "keys",
        "FILE",
        "The file of keys, which has the key NAME",
    );
    let query = flag(alloc, "query", "The input is the whole answer to a query");
    let complete = flag(
        alloc,
        "complete",
        "As --query, and the answer has every open change: open changes that it lacks are abandoned",
    );
    Building::of(
        alloc,
        "events",
        "Turns Gerrit's events and query answers into session lines, or sends them to a site",
    )
    .with(to)
    .with(keys)
    .with(query)
    .with(complete)
}
