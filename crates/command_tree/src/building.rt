//! A command in the making: refused memory is answered once, at its end.

ghost use Rattle.std.specs.Prelude.{IfOk};
ghost use Rattle.clap.specs.Words.{App, Rule, new_app, with_rule, with_subcommand};
ghost use Rattle.command_tree.specs.Building.{Builds};
ghost use Rattle.command_tree.specs.Commands.{IsApp};
ghost use Rattle.command_tree.specs.Rules.{IsRule};

use clap::{Arg, Command};
use std::alloc::{AllocError, Global};

/// A command with the arguments that it was given up to now, or refused memory.
#[derive(Drop)]
pub struct Building<'a> {
    pub command: Result<Command<'a>, AllocError>,
}

impl<'a> Building<'a> {
    /// A command without arguments.
    pub fn of(alloc: Global, name: &'a str, about: &'a str) -> Building<'a>
        ensures { Builds (new_app name.entry.now) result }
    {
        Building {
            command: Ok(Command::new(alloc, name).about(about)),
        }
    }

    /// The command with one more argument.
    pub fn with(self, arg: Arg<'a>) -> Building<'a>
        ensures { (app : App) → (rule : Rule) → Builds app self.entry → IsRule rule arg.entry
            → Builds (with_rule app rule) result }
    {
        Building {
            command: added(self.command, arg),
        }
    }

    /// The command with one more subcommand.
    pub fn with_command(self, under: Building<'a>) -> Building<'a>
        ensures { (app sub : App) → Builds app self.entry → Builds sub under.entry
            → Builds (with_subcommand app sub.top) result }
    {
        Building {
            command: placed_over(self.command, under.command),
        }
    }
}

/// A command with one more argument, unless memory was or is refused.
fn added<'a>(
    command: Result<Command<'a>, AllocError>,
    arg: Arg<'a>,
) -> Result<Command<'a>, AllocError>
    ensures { (app : App) → (rule : Rule) → IfOk command.entry (IsApp app) → IsRule rule arg.entry
        → IfOk result (IsApp (with_rule app rule)) }
{
    command?.arg(arg)
}

/// A command with one more subcommand, unless memory was or is refused.
fn placed_over<'a>(
    command: Result<Command<'a>, AllocError>,
    under: Result<Command<'a>, AllocError>,
) -> Result<Command<'a>, AllocError>
    ensures { (app sub : App) → IfOk command.entry (IsApp app) → IfOk under.entry (IsApp sub)
        → IfOk result (IsApp (with_subcommand app sub.top)) }
{
    command?.subcommand(under?)
}
