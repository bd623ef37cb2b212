//! Answers lines as they come.

ghost use Rattle.std.specs.Prelude.{◌≡◌, ◌++◌, ℕ, List, [], IfErr, IfOk, OnOk, codes, decimal, false, flat_map};
ghost use Rattle.std.specs.Prelude.{string_bytes};
ghost use Rattle.query_plan.specs.Plan.{IsNewPlan};
ghost use Rattle.query_plan.specs.Running.{Answers, Does, EndsLine, RunsPlan, PutsOut, PutsOutLast, PutsOutBoth};
ghost use Rattle.query_plan.specs.Running.{given_text};
ghost use Rattle.query_plan.specs.Running.{noted_text};
ghost use Rattle.query_plan.specs.declared.plan.Plan.{Plan};

use super::fault::PlanFault;
use super::line::{Line, read_line};
use super::notice::Notice;
use super::plan::Plan;
use super::schedule::{Query, Settings};
use super::step::{Answer, Unanswered};
use byte_ends::{BytesFault, Drain, Source, write_all};
use line_reader::LineReader;
use std::alloc::{AllocError, Global};

/// How many bytes a line may have: more than any that a plan reads.
const LINE_LIMIT: usize = 4096;

/// Reads lines, and answers each `next` by the query that is given, before the next line is read; what becomes of
/// queries that failed goes to standard error. Ends well at the end of the source. Refusals: 1 `BadLine`, the line of
/// this number, counted from 1, says nothing that a plan reads, or has no LF; 2 `NoQuery`, the line of this number
/// speaks of an answer, and no query is under way; 3 `ReadFault`, the source failed, or gave 2^64 - 1 lines; 4
/// `WriteFault`, an output failed; 5 `NoMemory`. All lines before were answered. A line costs what `Plan::step` costs,
/// and O(n) for n bytes that are read and written.
pub fn plan_queries<S: Source, D: Drain, E: Drain>(
    alloc: Global,
    settings: Settings,
    source: &mut S,
    output: &mut D,
    errors: &mut E,
) -> Result<(), PlanFault>
    // The lines are answered in turn, by a plan that is new at first; how the run ends says how the last one does.
    ensures { (first : Plan) × IsNewPlan settings first × (last : Plan) × (held : List ℕ) × RunsPlan 4096
        (record {
          plan = first;
          held = [];
          left = S.left source.old;
          unread = S.failed source.old;
          output = record { taken = D.taken output.old; failed = D.failed output.old };
          errors = record { taken = E.taken errors.old; failed = E.failed errors.old };
        })
        (record {
          plan = last;
          held = held;
          left = S.left source.new;
          unread = S.failed source.new;
          output = record { taken = D.taken output.new; failed = D.failed output.new };
          errors = record { taken = E.taken errors.new; failed = E.failed errors.new };
        })
        result }
{
    let mut plan = Plan::new(alloc, settings);
    let Ok(mut reader) = LineReader::new(alloc, LINE_LIMIT) else {
        return Err(PlanFault::NoMemory);
    };
    for number in 0..u64::MAX {
        match answer_next(
            alloc,
            number + 1,
            &mut reader,
            &mut plan,
            source,
            output,
            errors,
        ) {
            Ok(true) => {}
            Ok(false) => return Ok(()),
            Err(fault) => return Err(fault),
        }
    }
    Err(PlanFault::ReadFault)
}

/// Reads the next line, which has this number, and answers it. Returns whether there was one.
fn answer_next<S: Source, D: Drain, E: Drain>(
    alloc: Global,
    number: u64,
    reader: &mut LineReader,
    plan: &mut Plan,
    source: &mut S,
    output: &mut D,
    errors: &mut E,
) -> Result<bool, PlanFault>
    ensures limit { reader.new.limit ≡ reader.old.limit }
    ensures ends { EndsLine reader.old.limit number
        (record {
          plan = plan.old;
          held = reader.old.held;
          left = S.left source.old;
          unread = S.failed source.old;
          output = record { taken = D.taken output.old; failed = D.failed output.old };
          errors = record { taken = E.taken errors.old; failed = E.failed errors.old };
        })
        result
        (record {
          plan = plan.new;
          held = reader.new.held;
          left = S.left source.new;
          unread = S.failed source.new;
          output = record { taken = D.taken output.new; failed = D.failed output.new };
          errors = record { taken = E.taken errors.new; failed = E.failed errors.new };
        }) }
{
    match reader.next_line(source) {
        Ok(true) => answer_line(alloc, number, reader.line(), plan, output, errors),
        Ok(false) => end_of(number, reader.held()),
        Err(BytesFault::TooLong) => Err(PlanFault::BadLine(number)),
        Err(BytesFault::ReadFault) => Err(PlanFault::ReadFault),
        Err(BytesFault::NoMemory) => Err(PlanFault::NoMemory),
    }
}

/// That there is no further line, where this is held at the end of the source; else it is the line of this number.
fn end_of(number: u64, held: &[u8]) -> Result<bool, PlanFault>
    ensures ok { IfOk result (λ more. (more ≡ false) × (held.now ≡ [])) }
    ensures refused { IfErr result (λ fault. (fault ≡ PlanFault.BadLine number) × ¬ (held.now ≡ [])) }
{
    if held.is_empty() {
        Ok(false)
    } else {
        Err(PlanFault::BadLine(number))
    }
}

/// Answers the line of this number.
fn answer_line<D: Drain, E: Drain>(
    alloc: Global,
    number: u64,
    text: &[u8],
    plan: &mut Plan,
    output: &mut D,
    errors: &mut E,
) -> Result<bool, PlanFault>
    ensures { Answers text.now number plan.old
        (record { taken = D.taken output.old; failed = D.failed output.old })
        (record { taken = E.taken errors.old; failed = E.failed errors.old })
        result plan.new
        (record { taken = D.taken output.new; failed = D.failed output.new })
        (record { taken = E.taken errors.new; failed = E.failed errors.new }) }
{
    match read_line(alloc, text) {
        Ok(Some(line)) => do_line(alloc, number, line, plan, output, errors),
        Ok(None) => Err(PlanFault::BadLine(number)),
        Err(_) => Err(PlanFault::NoMemory),
    }
}

/// Does what the line of this number says, and answers it.
fn do_line<D: Drain, E: Drain>(
    alloc: Global,
    number: u64,
    line: Line,
    plan: &mut Plan,
    output: &mut D,
    errors: &mut E,
) -> Result<bool, PlanFault>
    ensures { Does line number plan.old
        (record { taken = D.taken output.old; failed = D.failed output.old })
        (record { taken = E.taken errors.old; failed = E.failed errors.old })
        result plan.new
        (record { taken = D.taken output.new; failed = D.failed output.new })
        (record { taken = E.taken errors.new; failed = E.failed errors.new }) }
{
    match plan.step(alloc, line) {
        Ok(answer) => write_answer(alloc, answer, plan.named.as_slice(), output, errors),
        Err(Unanswered::NoQuery) => Err(PlanFault::NoQuery(number)),
        Err(Unanswered::NoMemory) => Err(PlanFault::NoMemory),
    }
}

/// Writes what is answered, where these changes are named.
fn write_answer<D: Drain, E: Drain>(
    alloc: Global,
    answer: Answer,
    named: &[u32],
    output: &mut D,
    errors: &mut E,
) -> Result<bool, PlanFault>
    ensures { PutsOutBoth (given_text answer.given named.now) (noted_text answer.notice)
        (record { taken = D.taken output.old; failed = D.failed output.old })
        (record { taken = E.taken errors.old; failed = E.failed errors.old })
        result
        (record { taken = D.taken output.new; failed = D.failed output.new })
        (record { taken = E.taken errors.new; failed = E.failed errors.new }) }
{
    let Ok(said) = text_given(alloc, answer.given, named) else {
        return Err(PlanFault::NoMemory);
    };
    let Ok(noted) = text_noted(alloc, answer.notice) else {
        return Err(PlanFault::NoMemory);
    };
    match send(errors, noted.as_str()) {
        Ok(()) => send_last(output, said.as_str()),
        Err(fault) => Err(fault),
    }
}

/// Writes a text, after which the next line may come.
fn send_last<D: Drain>(drain: &mut D, text: &str) -> Result<bool, PlanFault>
    ensures { PutsOutLast text.now
        (record { taken = D.taken drain.old; failed = D.failed drain.old })
        (record { taken = D.taken drain.new; failed = D.failed drain.new }) result }
{
    match send(drain, text) {
        Ok(()) => Ok(true),
        Err(fault) => Err(fault),
    }
}

/// The line of the query that is given, where one was wanted, which may name these changes.
fn text_given(alloc: Global, given: Option<Query>, named: &[u32]) -> Result<String, AllocError>
    ensures { IfOk result (λ text. string_bytes text ≡ given_text given named.now) }
{
    match given {
        None => Ok(String::new(alloc)),
        Some(Query::Nothing) => String::from_str(alloc, "nothing\n"),
        Some(Query::All) => String::from_str(alloc, "all\n"),
        Some(Query::Changes) => text_of_changes(alloc, named),
    }
}

/// The line of a query of changes.
fn text_of_changes(alloc: Global, named: &[u32]) -> Result<String, AllocError>
    ensures { IfOk result (λ text. string_bytes text
        ≡ codes "changes" ++ flat_map (λ change. codes " " ++ decimal change) named.now ++ codes "\n") }
{
    let mut text = String::from_str(alloc, "changes")?;
    for change in named {
        add_change(&mut text, *change)?;
    }
    text.push_str("\n")?;
    Ok(text)
}

/// Adds a blank and the number of a change.
fn add_change(text: &mut String, change: u32) -> Result<(), AllocError>
    ensures { OnOk result (string_bytes text.new ≡ string_bytes text.old ++ (codes " " ++ decimal change)) }
{
    write!(text, " {change}")
}

/// What is written of a query that failed.
fn text_noted(alloc: Global, notice: Option<Notice>) -> Result<String, AllocError>
    ensures { IfOk result (λ text. string_bytes text ≡ noted_text notice) }
{
    let mut text = String::new(alloc);
    match notice {
        None => Ok(text),
        Some(notice) => {
            notice.write(&mut text)?;
            Ok(text)
        }
    }
}

/// Writes a text.
fn send<D: Drain>(drain: &mut D, text: &str) -> Result<(), PlanFault>
    ensures { PutsOut text.now
        (record { taken = D.taken drain.old; failed = D.failed drain.old })
        (record { taken = D.taken drain.new; failed = D.failed drain.new }) result }
{
    match write_all(drain, text.as_bytes()) {
        Ok(()) => Ok(()),
        Err(_) => Err(PlanFault::WriteFault),
    }
}
