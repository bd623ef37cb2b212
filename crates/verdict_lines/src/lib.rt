//! For tests: verdicts as text, one item a line, each refusal with its rank.
//!
//! An example of its use:
//!
//! ```
//! use verdict_lines::lines_of;
//! let gate = Gate::read(alloc, b"{\"bases\":[\"/\"]}")?;
//! let verdicts = evaluate(alloc, &State::new(alloc), &gate)?;
//! assert_eq!(rt; lines_of(alloc, &verdicts)?.as_str(), "");
//! ```
#![tactic(auto)]

use gate_rules::Clause;
use ready_core::{Left, Refusal, Verdicts};
use state_core::Item;
use std::alloc::{AllocError, Global};

/// The verdicts as a text: a line for each item, the ready ones first.
pub fn lines_of(alloc: Global, verdicts: &Verdicts) -> Result<String, AllocError> {
    let mut text = String::new(alloc);
    for item in verdicts.ready() {
        let Item { change, set } = *item;
        write!(text, "ready {change},{set}\n")?;
    }
    for left in verdicts.out() {
        write_left(&mut text, *left)?;
    }
    Ok(text)
}

/// Writes the line of an item that is left out.
fn write_left(text: &mut String, left: Left) -> Result<(), AllocError> {
    let Item { change, set } = left.item;
    write!(text, "out {change},{set} ")?;
    write_refusal(text, left.refusal)?;
    let rank = left.rank;
    write!(text, " {rank}\n")
}

/// Writes why an item is left out.
fn write_refusal(text: &mut String, refusal: Refusal) -> Result<(), AllocError> {
    text.push_str(refusal.word())?;
    match refusal {
        Refusal::Own(condition) => write_clause(text, condition.clause),
        Refusal::Cycle => Ok(()),
        Refusal::Unknown(change) | Refusal::Dependency(change) => write!(text, " {change}"),
    }
}

/// Writes a clause after its side.
fn write_clause(text: &mut String, clause: Clause) -> Result<(), AllocError> {
    let key = clause.key();
    match clause.place() {
        Some(number) => write!(text, " {key} {number}"),
        None => write!(text, " {key}"),
    }
}
