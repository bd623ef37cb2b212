//! What the arguments of the commands over files say.

ghost use Rattle.command_tree.specs.Rows.{rows_in};
ghost use Rattle.std.specs.Prelude.{IfOk, codes};
ghost use Rattle.command_line.specs.Asking.{ArgumentsSay, GivesDetail, GivesFormat, GivesStrictness, IsRecovery, check};
ghost use Rattle.command_line.specs.Asking.{footers, graph, merge, ready, recover, simulate, why};
ghost use Rattle.command_line.specs.Values.{Finds, GivesRows};

use super::asked::{
    Asked, CheckCommand, Command, Detail, FootersCommand, GraphCommand, MergeCommand, OutputFormat,
    ReadyCommand, ReadyItemCommand, RecoverWords, SimulateCommand, Strictness, WhyCommand,
};
use super::numbers::{any_in, any_item_in, any_long_in, item_in, long_in, rows_of_sites};
use command_tree::{AROUND, CHANGE, UNTIL, Values};
use std::alloc::{AllocError, Global};

/// `ready GATE SNAPSHOT [--item CHANGE[,SET]] [--json]`
pub fn ready_in<'a>(values: &Values<'a>) -> Option<Asked<'a>>
    ensures { Finds (ArgumentsSay ready (rows_in values.now)) result }
{
    let gate = values.text("GATE")?;
    let snapshot = values.text("SNAPSHOT")?;
    let format = format_in(values);
    match any_item_in(values)? {
        None => Some(Asked::Run(Command::Ready(ReadyCommand {
            gate,
            snapshot,
            format,
        }))),
        Some((change, set)) => Some(Asked::Run(Command::ReadyItem(ReadyItemCommand {
            gate,
            snapshot,
            change,
            set,
            format,
        }))),
    }
}

/// How the answer is to be written.
fn format_in(values: &Values<'_>) -> OutputFormat
    ensures { GivesFormat (rows_in values.now) result }
{
    if values.flag("json") {
        OutputFormat::Json
    } else {
        OutputFormat::Text
    }
}

/// `why GATE SNAPSHOT CHANGE[,SET] [--all] [--json]`
pub fn why_in<'a>(values: &Values<'a>) -> Option<Asked<'a>>
    ensures { Finds (ArgumentsSay why (rows_in values.now)) result }
{
    let gate = values.text("GATE")?;
    let snapshot = values.text("SNAPSHOT")?;
    let (change, set) = item_in(values)?;
    Some(Asked::Run(Command::Why(WhyCommand {
        gate,
        snapshot,
        change,
        set,
        detail: detail_in(values),
        format: format_in(values),
    })))
}

/// How much is to be explained.
fn detail_in(values: &Values<'_>) -> Detail
    ensures { GivesDetail (rows_in values.now) result }
{
    if values.flag("all") {
        Detail::AllConditions
    } else {
        Detail::Cause
    }
}

/// `graph GATE SNAPSHOT [--around CHANGE]`
pub fn graph_in<'a>(values: &Values<'a>) -> Option<Asked<'a>>
    ensures { Finds (ArgumentsSay graph (rows_in values.now)) result }
{
    let gate = values.text("GATE")?;
    let snapshot = values.text("SNAPSHOT")?;
    let around = any_long_in(values, AROUND)?;
    Some(Asked::Run(Command::Graph(GraphCommand {
        gate,
        snapshot,
        around,
    })))
}

/// `merge FIRST SECOND`
pub fn merge_in<'a>(values: &Values<'a>) -> Option<Asked<'a>>
    ensures { Finds (ArgumentsSay merge (rows_in values.now)) result }
{
    let first = values.text("FIRST")?;
    let second = values.text("SECOND")?;
    Some(Asked::Run(Command::Merge(MergeCommand { first, second })))
}

/// `footers GATE FILE [--change N] [--json]`
pub fn footers_in<'a>(values: &Values<'a>) -> Option<Asked<'a>>
    ensures { Finds (ArgumentsSay footers (rows_in values.now)) result }
{
    let gate = values.text("GATE")?;
    let message = values.text("FILE")?;
    let change = long_in(values, CHANGE)?;
    Some(Asked::Run(Command::Footers(FootersCommand {
        gate,
        message,
        change,
        format: format_in(values),
    })))
}

/// `check GATE [SNAPSHOT] [--strict] [--json]`
pub fn check_in<'a>(values: &Values<'a>) -> Option<Asked<'a>>
    ensures { Finds (ArgumentsSay check (rows_in values.now)) result }
{
    let gate = values.text("GATE")?;
    let snapshot = values.text("SNAPSHOT");
    Some(Asked::Run(Command::Check(CheckCommand {
        gate,
        snapshot,
        strictness: strictness_in(values),
        format: format_in(values),
    })))
}

/// What warnings are to be.
fn strictness_in(values: &Values<'_>) -> Strictness
    ensures { GivesStrictness (rows_in values.now) result }
{
    if values.flag("strict") {
        Strictness::Strict
    } else {
        Strictness::Lenient
    }
}

/// `simulate SCRIPT [GATE]`
pub fn simulate_in<'a>(values: &Values<'a>) -> Option<Asked<'a>>
    ensures { Finds (ArgumentsSay simulate (rows_in values.now)) result }
{
    let script = values.text("SCRIPT")?;
    let gate = values.text("GATE");
    Some(Asked::Run(Command::Simulate(SimulateCommand { script, gate })))
}

/// `recover JOURNAL [--without SITE,START].. [--until TIME]`
pub fn recover_in<'a>(alloc: Global, values: &Values<'a>) -> Result<Option<Asked<'a>>, AllocError>
    ensures { IfOk result (Finds (ArgumentsSay recover (rows_in values.now))) }
{
    let Some(without) = rows_of_sites(alloc, values, "without")? else {
        return Ok(None);
    };
    match recovering_in(values, without) {
        Some(words) => Ok(Some(Asked::Recover(words))),
        None => Ok(None),
    }
}

/// What a journal is recovered with, without the operations of these sites and starts.
fn recovering_in<'a>(values: &Values<'a>, without: Vec<(u16, u32)>) -> Option<RecoverWords<'a>>
    requires { GivesRows (rows_in values.now) (codes "without") without.items }
    ensures { Finds (IsRecovery (rows_in values.now)) result }
{
    Some(RecoverWords {
        journal: values.text("JOURNAL")?,
        without,
        until: any_in(values, UNTIL)?,
    })
}
