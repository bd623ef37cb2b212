//! The values of a command's arguments.

ghost use Rattle.std.specs.Prelude.{◌≡◌, ◌↔◌, IsTrue, map, option_map};
ghost use Rattle.command_tree.specs.Matching.{HasFlag, all_of, first_of};

use clap::ArgMatches;

/// The values of a command's arguments, as `clap` matched them.
#[derive(Drop)]
pub struct Values<'a> {
    found: ArgMatches<'a>,
}

impl<'a> Values<'a> {
    ghost use Rattle.command_tree.specs.Rows.{rows_in};

    /// Those that were matched.
    pub(crate) fn new(found: ArgMatches<'a>) -> Values<'a>
        ensures { result.found ≡ found.entry }
    {
        Values { found }
    }

    /// The text of an argument.
    pub fn text(&self, argument: &str) -> Option<&'a str>
        ensures { first_of argument.now (rows_in self.now) ≡ option_map (λ text. text.now) result }
    {
        self.found.get_str(argument)
    }

    /// The texts of an argument that may be there more than once.
    pub fn texts(&self, argument: &str) -> Option<&[&'a str]>
        ensures { all_of argument.now (rows_in self.now)
            ≡ option_map (λ texts. map (λ text. text.now) texts.now) result }
    {
        self.found.get_strs(argument)
    }

    /// Whether an option without a value is there.
    pub fn flag(&self, option: &str) -> bool
        ensures { IsTrue result ↔ HasFlag (rows_in self.now) option.now }
    {
        match self.text(option) {
            Some(text) => text == "true",
            None => false,
        }
    }
}
