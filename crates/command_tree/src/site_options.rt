//! The arguments of `serve`.

ghost use Rattle.std.specs.Prelude.{codes};
ghost use Rattle.command_tree.specs.Building.{Builds};
ghost use Rattle.command_tree.specs.Commands.{ending_app, guarded_app, listening_app, paced_app};
ghost use Rattle.command_tree.specs.Commands.{peered_app, placed_app, printing_app, serve_app, shown_app};
ghost use Rattle.command_tree.specs.Rules.{IsRule, needed_number};

use super::arguments::{
    CONNECTIONS, IDLE, PAUSE, PORT, SESSIONS, SITE, SITES, START, WORKERS, default_option,
    default_text, file, flag, number_option, option, several, several_of, words,
};
use super::building::Building;
use super::program::GATE_HELP;
use clap::Arg;
use std::alloc::Global;

/// `serve GATE [PEER].. --site N [option]..`
pub fn serve_command<'a>(alloc: Global) -> Building<'a>
    ensures { Builds serve_app result }
{
    let load = option(alloc, "load", "FILE", "The snapshot to begin with");
    let save = option(
        alloc,
        "save",
        "FILE",
        "The snapshot that is written at the end",
    );
    let journal = option(
        alloc,
        "journal",
        "FILE",
        "The journal file, which keeps what is taken in",
    );
    let shown = shown_command(alloc);
    shown.with(load).with(save).with(journal)
}

/// The command with all but the names of files.
fn shown_command<'a>(alloc: Global) -> Building<'a>
    ensures { Builds shown_app result }
{
    let http = option(
        alloc,
        "http",
        "ADDRESS",
        "Serves web pages at a port on 127.0.0.1 (0 chooses a free one) or at a Unix socket",
    );
    let host = several(
        alloc,
        "http-host",
        "NAME",
        "A host name that browsers may use for it, beside localhost; may be repeated",
    );
    printing_command(alloc).with(http).with(host)
}

/// The command with all but the names of files and where it shows itself.
fn printing_command<'a>(alloc: Global) -> Building<'a>
    ensures { Builds printing_app result }
{
    let print = default_text(
        alloc,
        "print",
        "report",
        "WHAT",
        "What it prints: report, changes or none",
    );
    let times = flag(
        alloc,
        "log-time",
        "Begins each line on standard error with the time, in UTC",
    );
    ending_command(alloc).with(print).with(times)
}

/// The command with all but what it prints, and the names of files.
fn ending_command<'a>(alloc: Global) -> Building<'a>
    ensures { Builds ending_app result }
{
    let idle = default_option(
        alloc,
        IDLE,
        "300000",
        "MS",
        "Milliseconds of silence after which a session that fed nothing is ended; 0 means no limit",
    );
    let connections = default_option(
        alloc,
        CONNECTIONS,
        "1024",
        "N",
        "How many connections may be open at once, 1 to 65535",
    );
    let ending = flag(
        alloc,
        "until-input-ends",
        "Obeys the lines stop and reload on standard input, and stops when it ends",
    );
    let paced = paced_command(alloc);
    paced.with(idle).with(connections).with(ending)
}

/// The command with what the site is, where it is reached, whom it listens to and how it works.
fn paced_command<'a>(alloc: Global) -> Building<'a>
    ensures { Builds paced_app result }
{
    let workers = default_option(
        alloc,
        WORKERS,
        "2",
        "N",
        "How many threads answer ready, state and front, 1 to 6",
    );
    let pause = default_option(
        alloc,
        PAUSE,
        "1000",
        "MS",
        "Milliseconds between two rounds of pulls, 1 to 600000",
    );
    let sessions = default_option(
        alloc,
        SESSIONS,
        "0",
        "N",
        "Ends after so many sessions; 0 means no limit",
    );
    let guarded = guarded_command(alloc);
    guarded.with(workers).with(pause).with(sessions)
}

/// The command with what the site is, where it is reached and whom it listens to.
fn guarded_command<'a>(alloc: Global) -> Building<'a>
    ensures { Builds guarded_app result }
{
    let sites = several_of(
        alloc,
        SITES,
        "N",
        "A site whose operations it accepts from peers; may be repeated; all sites by default",
    );
    listening_command(alloc).with(sites)
}

/// The command with what the site is, and where it is reached.
fn listening_command<'a>(alloc: Global) -> Building<'a>
    ensures { Builds listening_app result }
{
    let listen = several(
        alloc,
        "listen",
        "ADDRESS",
        "A Unix socket for its sessions, by a path with a slash, or HOST:PORT, sealed by keys; may be repeated",
    );
    let mode = default_text(
        alloc,
        "mode",
        "600",
        "MODE",
        "Who may connect to its sockets: 600, its user, or 660, its group too",
    );
    let keys = option(
        alloc,
        "keys",
        "FILE",
        "The file of keys: those it accepts, and those it connects with",
    );
    let placed = placed_command(alloc);
    placed.with(listen).with(mode).with(keys)
}

/// The command with what the site is, and its port.
fn placed_command<'a>(alloc: Global) -> Building<'a>
    ensures { Builds placed_app result }
{
    let start = number_option(
        alloc,
        START,
        "N",
        "The start; must be greater than every start the site has used; optional with --journal",
    );
    let port = number_option(
        alloc,
        PORT,
        "P",
        "The port on 127.0.0.1; 0, the default without --listen, has the system choose one",
    );
    let peered = peered_command(alloc);
    peered.with(site_option(alloc)).with(start).with(port)
}

/// The command with what has no name: a gate and peers.
fn peered_command<'a>(alloc: Global) -> Building<'a>
    ensures { Builds peered_app result }
{
    let peers = words(
        alloc,
        "PEER",
        "The sites that it pulls from: ports on 127.0.0.1, paths of Unix sockets, or NAME@HOST:PORT by the key NAME",
    );
    Building::of(
        alloc,
        "serve",
        "Runs a site: answers sessions, pulls from peers, prints the report whenever it changes",
    )
    .with(file(alloc, "GATE", GATE_HELP))
    .with(peers)
}

/// `--site N`
fn site_option<'a>(alloc: Global) -> Arg<'a>
    ensures { IsRule (needed_number (codes "site") 1 65535) result }
{
    number_option(alloc, SITE, "N", "The site's number, from 1 to 65535").required(true)
}
