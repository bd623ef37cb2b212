//! The arguments of `enqueue`.

ghost use Rattle.command_tree.specs.Building.{Builds};
ghost use Rattle.command_tree.specs.Commands.{enqueue_app, templated_app};

use super::arguments::{default_text, file, option};
use super::building::Building;
use std::alloc::Global;

/// What is written for an item where no template is named.
const TEMPLATE: &str =
    "zuul-client enqueue --tenant {tenant} --pipeline {pipeline} --project {project} --change {change},{set}";

/// `enqueue QUERY [--tenant TENANT] [--pipeline NAME] [--template TEXT] [--projects FILE] [--handed FILE]`
pub fn enqueue_command<'a>(alloc: Global) -> Building<'a>
    ensures { Builds enqueue_app result }
{
    let projects = option(
        alloc,
        "projects",
        "FILE",
        "The file of the pipeline's projects, one per line, or - for standard input; # begins a comment",
    );
    let handed = option(
        alloc,
        "handed",
        "FILE",
        "The file of the items that were handed over before, as CHANGE,SET, one per line",
    );
    templated_command(alloc).with(projects).with(handed)
}

/// The command with what is written for an item.
fn templated_command<'a>(alloc: Global) -> Building<'a>
    ensures { Builds templated_app result }
{
    let query = file(
        alloc,
        "QUERY",
        "The file with the answer of gerrit query --format=JSON, for each change's project",
    );
    let tenant = option(alloc, "tenant", "TENANT", "Zuul's tenant, for {tenant}");
    let pipeline = option(
        alloc,
        "pipeline",
        "NAME",
        "The pipeline's name, for {pipeline}",
    );
    let template = default_text(
        alloc,
        "template",
        TEMPLATE,
        "TEXT",
        "What is written for an item, with {tenant} {pipeline} {project} {branch} {change} {set}",
    );
    Building::of(
        alloc,
        "enqueue",
        "Writes a command for each item that became ready in reports on standard input",
    )
    .with(query)
    .with(tenant)
    .with(pipeline)
    .with(template)
}
