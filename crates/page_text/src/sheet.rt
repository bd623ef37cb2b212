//! A JSON text that is being written.

ghost use Rattle.std.specs.Prelude.{◌≡◌, ◌∷◌, [], IfOk, None, OnOk, map};
ghost use Rattle.json_line.specs.Tokens.{AddsTokens, number_if};
ghost use Rattle.page_text.specs.Sheets.{IsBegun, IsWholeSheet, NotesTokens, mark_token};

use json::Writer;
use lattice_core::NoMemory;
use std::alloc::{AllocError, Global};
use std::marker::Model;

/// A part of a JSON text.
#[derive(Clone, Copy)]
pub enum Mark<'a> {
    /// An object begins.
    Open,
    /// An object ends.
    Close,
    /// A list begins.
    OpenList,
    /// A list ends.
    CloseList,
    /// The key of a member.
    Key(&'a str),
    /// A text.
    Text(&'a str),
    /// A number.
    Number(u64),
    /// A number that may have a sign.
    Signed(i64),
    /// A number, or `null` where there is none.
    NumberIf(Option<u64>),
    /// `true` or `false`.
    Flag(bool),
}

/// A JSON text that is being written, as `Markup` is of HTML: contracts see what was written, or `None` once memory was
/// refused for it, which is remembered.
#[derive(Drop)]
pub struct Sheet {
    out: Writer<Global>,
    is_refused: bool,
}

impl Model for Sheet {
    ghost use Rattle.std.specs.Prelude.{Option, None, Some, if◌then◌else◌};
    ghost use Rattle.json.specs.Written.{Written};

    ghost Value = { Option Written };

    ghost view = { λ sheet. if sheet.is_refused then None else Some sheet.out };
}

impl Sheet {
    /// Nothing is written yet.
    pub fn new(alloc: Global) -> Sheet
        ensures { IsBegun result }
    {
        Sheet {
            out: Writer::new(Vec::new(alloc)),
            is_refused: false,
        }
    }

    /// Adds marks, one after the other.
    pub fn add(&mut self, marks: &[Mark<'_>])
        ensures { NotesTokens (map mark_token marks.now) self.old self.new }
    {
        if !self.is_refused {
            self.is_refused = put_marks(&mut self.out, marks).is_err();
        }
    }

    /// Notes that memory was refused for something that was to be added.
    pub fn refuse(&mut self)
        ensures { self.new ≡ None }
    {
        self.is_refused = true;
    }

    /// The bytes of the text: all that was added. Refusal: memory was refused for some of it.
    pub fn end(self) -> Result<Vec<u8>, NoMemory>
        ensures { IfOk result (λ text. IsWholeSheet self text.items) }
    {
        if self.is_refused {
            return Err(NoMemory);
        }
        Ok(self.out.into_inner())
    }
}

/// Adds marks.
fn put_marks(out: &mut Writer<Global>, marks: &[Mark<'_>]) -> Result<(), AllocError>
    ensures { OnOk result (AddsTokens out.old out.new (map mark_token marks.now)) }
{
    for mark in marks {
        put_mark(out, *mark)?;
    }
    Ok(())
}

/// Adds a mark.
#[tactic(auto, using(crate::proofs::Marks::writes_adds))]
fn put_mark(out: &mut Writer<Global>, mark: Mark<'_>) -> Result<(), AllocError>
    ensures { OnOk result (AddsTokens out.old out.new (mark_token mark.entry ∷ [])) }
{
    match mark {
        Mark::Open => out.begin_object(),
        Mark::Close => out.end_object(),
        Mark::OpenList => out.begin_array(),
        Mark::CloseList => out.end_array(),
        Mark::Key(name) => out.key(name),
        Mark::Text(text) => out.string(text),
        Mark::Number(number) => out.u64(number),
        Mark::Signed(number) => out.i64(number),
        Mark::NumberIf(number) => put_number_if(out, number),
        Mark::Flag(flag) => out.boolean(flag),
    }
}

/// Adds a number, or `null` where there is none.
#[tactic(auto, using(crate::proofs::Marks::writes_adds))]
fn put_number_if(out: &mut Writer<Global>, number: Option<u64>) -> Result<(), AllocError>
    ensures { OnOk result (AddsTokens out.old out.new (number_if number ∷ [])) }
{
    match number {
        Some(number) => out.u64(number),
        None => out.null(),
    }
}
