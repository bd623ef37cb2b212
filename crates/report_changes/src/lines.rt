//! The lines that say what changed from one listing to the next.

ghost use Rattle.std.specs.Prelude.{◌≡◌, ◌++◌, IfOk, OnOk, filter, map, not};
ghost use Rattle.report_changes.specs.Listing.{is_listed, is_out_for, is_ready};
ghost use Rattle.report_changes.specs.Lines.{changed};

use super::listed::Listed;
use ready_core::Left;
use state_core::Item;
use std::alloc::{AllocError, Global};

/// A line of a group.
#[derive(Clone, Copy, Debug, PartialEq, Eq)]
pub enum Line {
    /// The item was ready, and isn't any more.
    NotReady(Item),
    /// The item is ready, and wasn't.
    Ready(Item),
    /// The item is left out, and wasn't for this refusal.
    Out(Left),
    /// The item was listed, and isn't any more.
    Gone(Item),
}

/// What changed from one listing to the next: the items that aren't ready any more and those that are ready now, in
/// gate order, those that are left out for another refusal, in item order, and those that aren't listed any more. It
/// costs O(n log n) for n items.
pub fn lines_of(alloc: Global, old: &Listed, new: &Listed) -> Result<Vec<Line>, AllocError>
    ensures { IfOk result (λ lines. lines.items ≡ changed old.now new.now) }
{
    let mut lines = Vec::new(alloc);
    add_not_ready(&mut lines, old.ready(), new)?;
    add_ready(&mut lines, old, new.ready())?;
    add_out(&mut lines, old, new.out())?;
    add_gone_ready(&mut lines, old.ready(), new)?;
    add_gone_out(&mut lines, old.out(), new)?;
    Ok(lines)
}

/// Adds the items that aren't ready any more.
fn add_not_ready(lines: &mut Vec<Line>, items: &[Item], new: &Listed) -> Result<(), AllocError>
    ensures { OnOk result (lines.new.items ≡ lines.old.items
        ++ map Line.NotReady (filter (λ item. not (is_ready new.now item)) items.now)) }
{
    for item in items {
        if !new.is_ready(*item) {
            lines.push(Line::NotReady(*item))?;
        }
    }
    Ok(())
}

/// Adds the items that are ready now.
fn add_ready(lines: &mut Vec<Line>, old: &Listed, items: &[Item]) -> Result<(), AllocError>
    ensures { OnOk result (lines.new.items ≡ lines.old.items
        ++ map Line.Ready (filter (λ item. not (is_ready old.now item)) items.now)) }
{
    for item in items {
        if !old.is_ready(*item) {
            lines.push(Line::Ready(*item))?;
        }
    }
    Ok(())
}

/// Adds the items that are left out for another refusal.
fn add_out(lines: &mut Vec<Line>, old: &Listed, out: &[Left]) -> Result<(), AllocError>
    ensures { OnOk result (lines.new.items ≡ lines.old.items
        ++ map Line.Out (filter (λ left. not (is_out_for old.now left)) out.now)) }
{
    for left in out {
        if !old.is_out_for(*left) {
            lines.push(Line::Out(*left))?;
        }
    }
    Ok(())
}

/// Adds the items that aren't listed any more, of those that were ready.
fn add_gone_ready(lines: &mut Vec<Line>, items: &[Item], new: &Listed) -> Result<(), AllocError>
    ensures { OnOk result (lines.new.items ≡ lines.old.items
        ++ map Line.Gone (filter (λ item. not (is_listed new.now item)) items.now)) }
{
    for item in items {
        if !new.is_listed(*item) {
            lines.push(Line::Gone(*item))?;
        }
    }
    Ok(())
}

/// Adds the items that aren't listed any more, of those that were left out.
fn add_gone_out(lines: &mut Vec<Line>, out: &[Left], new: &Listed) -> Result<(), AllocError>
    ensures { OnOk result (lines.new.items ≡ lines.old.items
        ++ map (λ left. Line.Gone left.item) (filter (λ left. not (is_listed new.now left.item)) out.now)) }
{
    for left in out {
        if !new.is_listed(left.item) {
            lines.push(Line::Gone(left.item))?;
        }
    }
    Ok(())
}
