//! What the arguments of `enqueue` say.

ghost use Rattle.command_line.specs.Asking.{ArgumentsSay, IsHanding, enqueue};
ghost use Rattle.command_line.specs.Values.{Finds};
ghost use Rattle.command_tree.specs.Rows.{rows_in};

use super::asked::{Asked, EnqueueWords};
use command_tree::Values;

/// `enqueue QUERY [--tenant TENANT] [--pipeline NAME] [--template TEXT] [--projects FILE] [--handed FILE]`
pub fn enqueue_in<'a>(values: &Values<'a>) -> Option<Asked<'a>>
    ensures { Finds (ArgumentsSay enqueue (rows_in values.now)) result }
{
    match handing_in(values) {
        Some(words) => Some(Asked::Enqueue(words)),
        None => None,
    }
}

/// What items are handed over with.
fn handing_in<'a>(values: &Values<'a>) -> Option<EnqueueWords<'a>>
    ensures { Finds (IsHanding (rows_in values.now)) result }
{
    Some(EnqueueWords {
        query: values.text("QUERY")?,
        tenant: values.text("tenant"),
        pipeline: values.text("pipeline"),
        template: values.text("template")?,
        projects: values.text("projects"),
        handed: values.text("handed"),
    })
}
