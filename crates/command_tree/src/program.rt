//! The program's commands and their arguments.

ghost use Rattle.std.specs.Prelude.{IfOk, codes};
ghost use Rattle.command_tree.specs.Building.{Builds};
ghost use Rattle.command_tree.specs.Commands.{IsApp, bare_app, check_app, events_app, footers_app, graph_app};
ghost use Rattle.command_tree.specs.Commands.{judging_app, merge_app, program, reading_app, ready_app, recover_app};
ghost use Rattle.command_tree.specs.Commands.{simulate_app, why_app};
ghost use Rattle.command_tree.specs.Rules.{IsRule, flag_rule};

use super::arguments::{
    AROUND, CHANGE, UNTIL, default_option, file, flag, number_option, option, optional, several,
};
use super::building::Building;
use super::enqueue_options::enqueue_command;
use super::feed_options::events_command;
use super::query_options::queries_command;
use super::site_options::serve_command;
use clap::{Arg, Command};
use std::alloc::{AllocError, Global};

/// The program's version, and the identity of the toolchain that proves and builds it, as `rt version` prints it.
const VERSION: &str = "0.2.0 (logic dac8208d650f15bf)";

/// What a gate file is.
pub const GATE_HELP: &str = "The gate file, or - for standard input";

/// What a snapshot is.
const SNAPSHOT_HELP: &str =
    "The snapshot's file, - for standard input, or @ADDRESS for a running site";

/// The flag of commands whose answer can be JSON.
fn json_flag<'a>(alloc: Global) -> Arg<'a>
    ensures { IsRule (flag_rule (codes "json")) result }
{
    flag(
        alloc,
        "json",
        "Prints one JSON object on one line in place of the text",
    )
}

/// The program.
pub fn program<'a>(alloc: Global) -> Result<Command<'a>, AllocError>
    ensures { IfOk result (IsApp program) }
{
    let reading = reading_commands(alloc);
    let serving = reading
        .with_command(serve_command(alloc))
        .with_command(recover_command(alloc));
    let feeding = serving
        .with_command(events_command(alloc))
        .with_command(queries_command(alloc))
        .with_command(enqueue_command(alloc));
    feeding.command
}

/// The program with the commands that read files alone.
fn reading_commands<'a>(alloc: Global) -> Building<'a>
    ensures { Builds reading_app result }
{
    judging_commands(alloc)
        .with_command(merge_command(alloc))
        .with_command(footers_command(alloc))
        .with_command(check_command(alloc))
        .with_command(simulate_command(alloc))
}

/// The program with the commands that judge a snapshot.
fn judging_commands<'a>(alloc: Global) -> Building<'a>
    ensures { Builds judging_app result }
{
    let bare = Building {
        command: bare_program(alloc),
    };
    bare.with_command(ready_command(alloc))
        .with_command(why_command(alloc))
        .with_command(graph_command(alloc))
}

/// The program, before it has its commands.
fn bare_program<'a>(alloc: Global) -> Result<Command<'a>, AllocError>
    ensures { IfOk result (IsApp bare_app) }
{
    let named = Command::new(alloc, "reviewgate").bin_name("reviewgate")?;
    let program = named
        .version(VERSION)
        .about("Keeps the review record of Gerrit changes at several sites")
        .no_binary_name(true)
        .subcommand_required(true);
    Ok(program)
}

/// `ready GATE SNAPSHOT [--item CHANGE[,SET]] [--json]`
fn ready_command<'a>(alloc: Global) -> Building<'a>
    ensures { Builds ready_app result }
{
    let item = option(
        alloc,
        "item",
        "CHANGE[,SET]",
        "Prints the line of this item alone, and ends with status 3 if it waits",
    );
    Building::of(
        alloc,
        "ready",
        "Prints which items may be enqueued, and why each other one waits",
    )
    .with(file(alloc, "GATE", GATE_HELP))
    .with(file(alloc, "SNAPSHOT", SNAPSHOT_HELP))
    .with(item)
    .with(json_flag(alloc))
}

/// `why GATE SNAPSHOT CHANGE[,SET] [--all] [--json]`
fn why_command<'a>(alloc: Global) -> Building<'a>
    ensures { Builds why_app result }
{
    let item = file(
        alloc,
        "CHANGE[,SET]",
        "The change's number, and that of a patch set if not the current one",
    );
    let all = flag(
        alloc,
        "all",
        "Prints each condition of the gate, too, and whether the item meets it",
    );
    Building::of(alloc, "why", "Prints why an item waits, down to the cause")
        .with(file(alloc, "GATE", GATE_HELP))
        .with(file(alloc, "SNAPSHOT", SNAPSHOT_HELP))
        .with(item)
        .with(all)
        .with(json_flag(alloc))
}

/// `graph GATE SNAPSHOT [--around CHANGE]`
fn graph_command<'a>(alloc: Global) -> Building<'a>
    ensures { Builds graph_app result }
{
    let around = number_option(
        alloc,
        AROUND,
        "CHANGE",
        "The change around which items are drawn: what it leads to, and what leads to it",
    );
    Building::of(
        alloc,
        "graph",
        "Prints what items wait for as a Graphviz graph",
    )
    .with(file(alloc, "GATE", GATE_HELP))
    .with(file(alloc, "SNAPSHOT", SNAPSHOT_HELP))
    .with(around)
}

/// `merge FIRST SECOND`
fn merge_command<'a>(alloc: Global) -> Building<'a>
    ensures { Builds merge_app result }
{
    let first = file(
        alloc,
        "FIRST",
        "The first snapshot's file, - for standard input, or @ADDRESS for a running site",
    );
    let second = file(
        alloc,
        "SECOND",
        "The second snapshot's file, - for standard input, or @ADDRESS for a running site",
    );
    Building::of(
        alloc,
        "merge",
        "Prints one snapshot with the operations of both",
    )
    .with(first)
    .with(second)
}

/// `footers GATE FILE [--change N] [--json]`
fn footers_command<'a>(alloc: Global) -> Building<'a>
    ensures { Builds footers_app result }
{
    let message = file(
        alloc,
        "FILE",
        "The file of the commit message, or - for standard input",
    );
    let change = default_option(
        alloc,
        CHANGE,
        "0",
        "N",
        "The number of the message's own change; 0 means none",
    );
    Building::of(
        alloc,
        "footers",
        "Prints the changes that a commit message depends on",
    )
    .with(file(alloc, "GATE", GATE_HELP))
    .with(message)
    .with(change)
    .with(json_flag(alloc))
}

/// `check GATE [SNAPSHOT] [--strict] [--json]`
fn check_command<'a>(alloc: Global) -> Building<'a>
    ensures { Builds check_app result }
{
    let snapshot = optional(
        alloc,
        "SNAPSHOT",
        "The snapshot to look up labels, voters and bases in, - for standard input, or @ADDRESS for a running site",
    );
    let strict = flag(alloc, "strict", "Ends with status 1 if there is a warning");
    Building::of(
        alloc,
        "check",
        "Prints the conditions of a gate file in words, and warns of likely mistakes",
    )
    .with(file(alloc, "GATE", GATE_HELP))
    .with(snapshot)
    .with(strict)
    .with(json_flag(alloc))
}

/// `simulate SCRIPT [GATE]`
fn simulate_command<'a>(alloc: Global) -> Building<'a>
    ensures { Builds simulate_app result }
{
    let script = file(
        alloc,
        "SCRIPT",
        "The script's file, or - for standard input",
    );
    let gate = optional(
        alloc,
        "GATE",
        "The gate file for the script's reports, or - for standard input",
    );
    Building::of(
        alloc,
        "simulate",
        "Plays a script of several sites and prints what each line answers",
    )
    .with(script)
    .with(gate)
}

/// `recover JOURNAL [--without SITE,START].. [--until TIME]`
fn recover_command<'a>(alloc: Global) -> Building<'a>
    ensures { Builds recover_app result }
{
    let journal = file(
        alloc,
        "JOURNAL",
        "The journal file, or - for standard input",
    );
    let without = several(
        alloc,
        "without",
        "SITE,START",
        "Leaves out the operations of this site under this start; may be repeated",
    );
    let until = number_option(
        alloc,
        UNTIL,
        "TIME",
        "Leaves out the operations whose time is above this",
    );
    Building::of(
        alloc,
        "recover",
        "Prints the snapshot of a journal file, without a line that a crash tore",
    )
    .with(journal)
    .with(without)
    .with(until)
}
