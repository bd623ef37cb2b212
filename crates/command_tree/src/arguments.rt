//! The kinds of arguments that commands have.

ghost use Rattle.std.specs.Prelude.{◌≡◌};
ghost use Rattle.clap.specs.Words.{new_rule};
ghost use Rattle.command_tree.specs.Rules.{IsRule, flag_rule, needed, number_rule, number_with};
ghost use Rattle.command_tree.specs.Rules.{option_rule, option_with, several_numbers, several_rule, words_rule};

use clap::builder::ValueParser;
use clap::{Arg, ArgAction};
use std::alloc::Global;

/// A number among the arguments: its name, and its least and greatest value.
#[derive(Clone, Copy)]
pub struct Number {
    pub name: &'static str,
    pub least: u64,
    pub most: u64,
}

/// The number of a site.
pub const SITE: Number = Number {
    name: "site",
    least: 1,
    most: 65_535,
};

/// The start of what a site takes in. The greatest number of 32 bits is none: no peer lets it in.
pub const START: Number = Number {
    name: "start",
    least: 1,
    most: 4_294_967_294,
};

/// The number of a site whose operations are taken in.
pub const SITES: Number = Number {
    name: "sites",
    least: 1,
    most: 65_535,
};

/// The port that a site listens at.
pub const PORT: Number = Number {
    name: "port",
    least: 0,
    most: 65_535,
};

/// How many threads look at a site's record for its sessions.
pub const WORKERS: Number = Number {
    name: "workers",
    least: 1,
    most: 6,
};

/// How many milliseconds pass between two rounds of pulls.
pub const PAUSE: Number = Number {
    name: "pause",
    least: 1,
    most: 600_000,
};

/// After how many sessions a site ends.
pub const SESSIONS: Number = Number {
    name: "sessions",
    least: 0,
    most: u64::MAX,
};

/// How many connections may be open at once.
pub const CONNECTIONS: Number = Number {
    name: "connections",
    least: 1,
    most: 65_535,
};

/// How many milliseconds a session may be silent.
pub const IDLE: Number = Number {
    name: "idle",
    least: 0,
    most: u64::MAX,
};

/// How many minutes pass from one query of all changes to the next.
pub const EVERY: Number = Number {
    name: "every",
    least: 1,
    most: 10_080,
};

/// For how many seconds changes to be asked for are gathered.
pub const GATHER: Number = Number {
    name: "gather",
    least: 0,
    most: 3_600,
};

/// How many seconds pass before a query that failed is asked again.
pub const QUERY_PAUSE: Number = Number {
    name: "pause",
    least: 0,
    most: 3_600,
};

/// The greatest time of an operation that is recovered.
pub const UNTIL: Number = Number {
    name: "until",
    least: 0,
    most: u64::MAX,
};

/// The change that a message is of.
pub const CHANGE: Number = Number {
    name: "change",
    least: 0,
    most: 4_294_967_295,
};

/// The change around which items are drawn.
pub const AROUND: Number = Number {
    name: "around",
    least: 0,
    most: 4_294_967_295,
};

/// An argument without a dash that has to be there.
pub fn file<'a>(alloc: Global, name: &'a str, help: &'a str) -> Arg<'a>
    ensures { IsRule (needed name.entry.now) result }
{
    Arg::new(alloc, name).required(true).help(help)
}

/// An argument without a dash that may be left out.
pub fn optional<'a>(alloc: Global, name: &'a str, help: &'a str) -> Arg<'a>
    ensures { IsRule (new_rule name.entry.now) result }
{
    Arg::new(alloc, name).help(help)
}

/// An option with a value.
pub fn option<'a>(alloc: Global, name: &'a str, value: &'a str, help: &'a str) -> Arg<'a>
    ensures { IsRule (option_rule name.entry.now) result }
{
    Arg::new(alloc, name)
        .long(name)
        .value_name(value)
        .help(help)
}

/// An option with a value that is `default` where the option is left out.
pub fn default_text<'a>(
    alloc: Global,
    name: &'a str,
    default: &'a str,
    value: &'a str,
    help: &'a str,
) -> Arg<'a>
    ensures { IsRule (option_with name.entry.now default.entry.now) result }
{
    option(alloc, name, value, help).default_value(default)
}

/// An option that may be there more than once, each time with a value.
pub fn several<'a>(alloc: Global, name: &'a str, value: &'a str, help: &'a str) -> Arg<'a>
    ensures { IsRule (several_rule name.entry.now) result }
{
    option(alloc, name, value, help).action(ArgAction::Append)
}

/// An option without a value.
pub fn flag<'a>(alloc: Global, name: &'a str, help: &'a str) -> Arg<'a>
    ensures { IsRule (flag_rule name.entry.now) result }
{
    Arg::new(alloc, name)
        .long(name)
        .action(ArgAction::SetTrue)
        .help(help)
}

/// An option with a number.
pub fn number_option<'a>(alloc: Global, number: Number, value: &'a str, help: &'a str) -> Arg<'a>
    ensures { IsRule (number_rule number.name.now number.least number.most) result }
{
    let limits = ValueParser::unsigned(number.least, number.most);
    option(alloc, number.name, value, help).value_parser(limits)
}

/// An option that may be there more than once, each time with a number.
pub fn several_of<'a>(alloc: Global, number: Number, value: &'a str, help: &'a str) -> Arg<'a>
    ensures { IsRule (several_numbers number.name.now number.least number.most) result }
{
    number_option(alloc, number, value, help).action(ArgAction::Append)
}

/// An option with a number that is `default` where the option is left out.
pub fn default_option<'a>(
    alloc: Global,
    number: Number,
    default: &'a str,
    value: &'a str,
    help: &'a str,
) -> Arg<'a>
    ensures { IsRule (number_with number.name.now default.entry.now number.least number.most) result }
{
    number_option(alloc, number, value, help).default_value(default)
}

/// An argument without a dash that is as many words as there are.
pub fn words<'a>(alloc: Global, name: &'a str, help: &'a str) -> Arg<'a>
    ensures { IsRule (words_rule name.entry.now) result }
{
    Arg::new(alloc, name).action(ArgAction::Append).help(help)
}
