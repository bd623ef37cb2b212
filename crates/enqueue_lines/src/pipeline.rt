//! The lines that hand items to a pipeline.

ghost use Rattle.std.specs.Prelude.{◌≡◌, ◌++◌, IfOk, OnOk, Some, codes, string_bytes};
ghost use Rattle.gerrit_events.specs.Rows.{place_shown};
ghost use Rattle.refusal_line.specs.Line.{line_of};
ghost use Rattle.report_text.specs.Report.{item_text};
ghost use Rattle.enqueue_lines.specs.Printing.{item_line, item_lines, line_at, pipe_shown, report_line, report_lines};
ghost use Rattle.enqueue_lines.specs.Printing.{unplaced_line};

use super::places::Places;
use super::site_line::add_item;
use super::template::{Template, Values};
use gerrit_events::{ChangePlace, Projects};
use refusal_line::{Part, refusal_line};
use state_core::Item;
use std::alloc::{AllocError, Global};

/// What items are handed over with.
#[derive(Clone, Copy)]
pub struct Pipeline<'a> {
    /// Zuul's tenant.
    pub tenant: &'a str,
    /// The pipeline's name.
    pub name: &'a str,
    /// What is written for an item.
    pub template: &'a Template,
    /// The projects that the pipeline has.
    pub projects: &'a Projects,
    /// Where changes are to be merged.
    pub places: &'a Places,
}

/// What is written for items.
#[derive(Debug, Drop)]
pub struct Texts {
    /// The lines that hand them over, for the output.
    pub lines: Vec<u8>,
    /// The lines that report items with an unknown change, for standard error.
    pub reports: Vec<u8>,
}

impl<'a> Pipeline<'a> {
    /// What is written for items, in their order: the template's line for each whose change is in a project of the
    /// pipeline, and a report, `reviewgate: enqueue 0 NoProject N,P`, of each whose change isn't known. It costs O(n)
    /// for n bytes that are written, and a look-up for each item.
    pub fn texts_of(&self, alloc: Global, items: &[Item]) -> Result<Texts, AllocError>
        ensures lines { IfOk result (λ texts. texts.lines.items ≡ item_lines (pipe_shown self.now) items.now) }
        ensures reports { IfOk result (λ texts. texts.reports.items ≡ report_lines (pipe_shown self.now) items.now) }
    {
        Ok(Texts {
            lines: lines_of(alloc, self, items)?,
            reports: reports_of(alloc, self, items)?,
        })
    }
}

/// The lines that hand items over.
fn lines_of(alloc: Global, pipeline: &Pipeline<'_>, items: &[Item]) -> Result<Vec<u8>, AllocError>
    ensures { IfOk result (λ text. text.items ≡ item_lines (pipe_shown pipeline.now) items.now) }
{
    let mut text = Vec::new(alloc);
    for item in items {
        add_line(alloc, &mut text, pipeline, *item)?;
    }
    Ok(text)
}

/// Adds the line that hands an item over, where its change is in a project of the pipeline.
fn add_line(
    alloc: Global,
    text: &mut Vec<u8>,
    pipeline: &Pipeline<'_>,
    item: Item,
) -> Result<(), AllocError>
    ensures { OnOk result (text.new.items ≡ text.old.items ++ item_line (pipe_shown pipeline.now) item) }
{
    match pipeline.places.get(&item.change) {
        None => Ok(()),
        Some(place) => add_line_at(alloc, text, pipeline, item, place),
    }
}

/// Adds the line that hands over an item of this place, where that is in a project of the pipeline.
fn add_line_at(
    alloc: Global,
    text: &mut Vec<u8>,
    pipeline: &Pipeline<'_>,
    item: Item,
    place: &ChangePlace,
) -> Result<(), AllocError>
    ensures { OnOk result (text.new.items
        ≡ text.old.items ++ line_at (pipe_shown pipeline.now) item (place_shown place.now)) }
{
    if !pipeline.projects.has(place.project.as_str()) {
        return Ok(());
    }
    let values = Values {
        tenant: pipeline.tenant,
        pipeline: pipeline.name,
        project: place.project.as_str(),
        branch: place.branch.as_str(),
        change: item.change,
        set: item.set,
    };
    pipeline.template.add_filled(alloc, text, &values)?;
    text.push(b'\n')?;
    Ok(())
}

/// The reports of items whose change isn't known.
fn reports_of(alloc: Global, pipeline: &Pipeline<'_>, items: &[Item]) -> Result<Vec<u8>, AllocError>
    ensures { IfOk result (λ text. text.items ≡ report_lines (pipe_shown pipeline.now) items.now) }
{
    let mut text = Vec::new(alloc);
    for item in items {
        add_report(alloc, &mut text, pipeline, *item)?;
    }
    Ok(text)
}

/// Adds the report of an item, where its change isn't known.
fn add_report(
    alloc: Global,
    text: &mut Vec<u8>,
    pipeline: &Pipeline<'_>,
    item: Item,
) -> Result<(), AllocError>
    ensures { OnOk result (text.new.items ≡ text.old.items ++ report_line (pipe_shown pipeline.now) item) }
{
    match pipeline.places.get(&item.change) {
        Some(_) => Ok(()),
        None => add_unknown(alloc, text, item),
    }
}

/// Adds the report of an item whose change isn't known.
fn add_unknown(alloc: Global, text: &mut Vec<u8>, item: Item) -> Result<(), AllocError>
    ensures { OnOk result (text.new.items ≡ text.old.items ++ unplaced_line item) }
{
    let line = unknown_line_of(alloc, item)?;
    text.extend_from_slice(line.as_bytes())
}

/// The report of an item whose change isn't known.
fn unknown_line_of(alloc: Global, item: Item) -> Result<String, AllocError>
    ensures { IfOk result (λ line. string_bytes line ≡ unplaced_line item) }
{
    let mut words = String::from_str(alloc, "NoProject ")?;
    add_item(&mut words, item)?;
    refusal_line(alloc, Part::Enqueue, 0, words.as_str())
}
