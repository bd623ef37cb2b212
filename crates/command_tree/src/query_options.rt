//! The arguments of `queries`.

ghost use Rattle.command_tree.specs.Building.{Builds};
ghost use Rattle.command_tree.specs.Commands.{queries_app};

use super::arguments::{EVERY, GATHER, QUERY_PAUSE, default_option};
use super::building::Building;
use std::alloc::Global;

/// `queries [--every MINUTES] [--gather SECONDS] [--pause SECONDS]`
pub fn queries_command<'a>(alloc: Global) -> Building<'a>
    ensures { Builds queries_app result }
{
    let every = default_option(
        alloc,
        EVERY,
        "5",
        "MINUTES",
        "Minutes from one query of all changes to the next, 1 to 10080",
    );
    let gather = default_option(
        alloc,
        GATHER,
        "2",
        "SECONDS",
        "Seconds in which changes to be queried are gathered, 0 to 3600",
    );
    let pause = default_option(
        alloc,
        QUERY_PAUSE,
        "5",
        "SECONDS",
        "Seconds before a query that failed is asked again, 0 to 3600; those of the query of all changes double with each failure, up to --every",
    );
    Building::of(
        alloc,
        "queries",
        "Says which changes a feed queries Gerrit for next, by what feeds ask for and how queries ended",
    )
    .with(every)
    .with(gather)
    .with(pause)
}
