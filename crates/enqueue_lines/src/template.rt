//! The template of a line, for whose fields values are put in.

ghost use Rattle.std.specs.Prelude.{◌≡◌, ◌++◌, ℕ, List, IfErr, IfOk, IsUtf8, MatchOption, OnOk, codes};
ghost use Rattle.std.specs.Prelude.{decimal, map};
ghost use Rattle.enqueue_lines.specs.Quoting.{quoted};
ghost use Rattle.enqueue_lines.specs.Shell.{after_bytes};
ghost use Rattle.enqueue_lines.specs.Template.{Given, IsRefusedTemplate, IsWrongBrace, Part, IsReadingOf};
ghost use Rattle.enqueue_lines.specs.Template.{ValuesStandBare};
ghost use Rattle.enqueue_lines.specs.Template.{field_value, filled, filled_part, name_of, template_part, values_given};
ghost use Rattle.enqueue_lines.specs.Template.{with_field, with_text};
ghost use Rattle.enqueue_lines.specs.Texts.{LacksByte};
ghost use Rattle.enqueue_lines.specs.declared.shell.ShellState.{ShellState};
ghost use Rattle.enqueue_lines.specs.declared.template.Field.{Field};

use super::fault::TemplateFault;
use super::quoting::add_quoted;
use super::shell::ShellState;
use std::alloc::{AllocError, Global};
use std::marker::Model;

/// What a template may name.
#[derive(Clone, Copy, Debug, PartialEq, Eq)]
pub enum Field {
    /// Zuul's tenant.
    Tenant,
    /// The pipeline.
    Pipeline,
    /// The project of the change, by Gerrit's name.
    Project,
    /// The branch that the change is for.
    Branch,
    /// The number of the change.
    Change,
    /// The number of the patch set.
    Set,
}

impl Field {
    /// The field with a name.
    pub fn named(name: &str) -> Option<Field>
        ensures { MatchOption result ((field : Field) → ¬ (name.now ≡ name_of field))
            (λ field. name.now ≡ name_of field) }
    {
        match name {
            "tenant" => Some(Field::Tenant),
            "pipeline" => Some(Field::Pipeline),
            "project" => Some(Field::Project),
            "branch" => Some(Field::Branch),
            "change" => Some(Field::Change),
            "set" => Some(Field::Set),
            _ => None,
        }
    }

    /// The field's name.
    pub fn name(self) -> &'static str
        ensures { result.now ≡ name_of self }
    {
        match self {
            Field::Tenant => "tenant",
            Field::Pipeline => "pipeline",
            Field::Project => "project",
            Field::Branch => "branch",
            Field::Change => "change",
            Field::Set => "set",
        }
    }
}

/// A piece of a template.
#[derive(Debug, Drop)]
pub enum Piece {
    /// A text, which is written as it is.
    Plain(String),
    /// A field, for which its value is written.
    Value(Field),
}

/// What is put in for the fields.
#[derive(Clone, Copy)]
pub struct Values<'a> {
    pub tenant: &'a str,
    pub pipeline: &'a str,
    pub project: &'a str,
    pub branch: &'a str,
    pub change: u32,
    pub set: u32,
}

/// A template: pieces of text and fields. Contracts see the list of them.
#[derive(Debug, Drop)]
pub struct Template {
    pieces: Vec<Piece>,
}

impl Model for Template {
    ghost use Rattle.std.specs.Prelude.{List, map};
    ghost use Rattle.enqueue_lines.specs.Template.{Part, template_part};

    ghost Value = { List Part };

    ghost view = { λ template. map template_part template.pieces.items };
}

impl Template {
    /// Reads a template: each name in braces is a field, and all else is text. Refusals: 7 `UnknownField`, the first
    /// braces that aren't right have no field's name between them; 8 `OpenBrace`, no brace closes the first one that
    /// isn't right; 11 `QuotedField`, the first braces that aren't right stand where a shell reads them as quoted, so
    /// that a value's own quotes would quote nothing, or behind a dollar, so that it reads a parameter's name; 5
    /// `NoMemory`. It costs O(n) for n bytes.
    pub fn read(alloc: Global, text: &str) -> Result<Template, TemplateFault<'_>>
        ensures read { IfOk result (IsReadingOf text.entry.now) }
        ensures refused { IfErr result (IsRefusedTemplate text.entry.now) }
    {
        let mut pieces = Vec::new(alloc);
        let mut rest = text;
        while let Some((plain, after)) = next_brace(rest) {
            let (field, next) = match field_behind(plain, after) {
                Ok(found) => found,
                Err(fault) => return Err(fault),
            };
            add_field(alloc, &mut pieces, plain, field)?;
            rest = next;
        }
        add_plain(alloc, &mut pieces, rest)?;
        Ok(Template { pieces })
    }

    /// Adds the template's text with values put in, each as a word of a shell. It costs O(n) for n bytes that are
    /// added.
    pub fn add_filled(
        &self,
        alloc: Global,
        text: &mut Vec<u8>,
        values: &Values<'_>,
    ) -> Result<(), AllocError>
        ensures { OnOk result (text.new.items ≡ text.old.items ++ filled self.now (values_given values.now)) }
    {
        add_pieces(alloc, text, self.pieces.as_slice(), values)
    }
}

/// What comes before the first open brace of a text, and what comes after it.
fn next_brace(rest: &str) -> Option<(&str, &str)>
    ensures { MatchOption result (LacksByte 123 rest.entry.now)
        (λ found. (rest.entry.now ≡ found.0.now ++ codes "{" ++ found.1.now) × LacksByte 123 found.0.now) }
{
    rest.split_once('{')
}

/// The field that begins a text, which follows an open brace, and what comes after the brace that closes it; where the
/// plain text before that brace, which a shell begins to read outside quotes, ends neither within them nor in a dollar.
fn field_behind<'a>(plain: &str, after: &'a str) -> Result<(Field, &'a str), TemplateFault<'a>>
    ensures text { IfOk result (λ found. IsUtf8 found.1.now) }
    ensures closed { IfOk result (λ found. after.entry.now ≡ name_of found.0 ++ codes "}" ++ found.1.now) }
    ensures bare { IfOk result (λ found. after_bytes ShellState.Bare plain.now ≡ ShellState.Bare) }
    ensures refused { IfErr result (IsWrongBrace (after_bytes ShellState.Bare plain.now) after.entry.now) }
{
    let (field, next) = match closed(after) {
        Ok(found) => found,
        Err(fault) => return Err(fault),
    };
    match ShellState::Bare.after_bytes(plain.as_bytes()) {
        ShellState::Bare => Ok((field, next)),
        _ => Err(TemplateFault::QuotedField(field)),
    }
}

/// The field that begins a text, which follows an open brace, and what comes after the brace that closes it.
fn closed(after: &str) -> Result<(Field, &str), TemplateFault<'_>>
    ensures text { IfOk result (λ found. IsUtf8 found.1.now) }
    ensures closed { IfOk result
        (λ found. after.entry.now ≡ name_of found.0 ++ codes "}" ++ found.1.now) }
    ensures refused { IfErr result (λ fault. (state : ShellState) → IsWrongBrace state after.entry.now fault) }
{
    let Some((name, next)) = after.split_once('}') else {
        return Err(TemplateFault::OpenBrace);
    };
    match Field::named(name) {
        Some(field) => Ok((field, next)),
        None => Err(TemplateFault::UnknownField(name)),
    }
}

/// Adds a text and a field.
fn add_field(
    alloc: Global,
    pieces: &mut Vec<Piece>,
    plain: &str,
    named: Field,
) -> Result<(), AllocError>
    ensures { OnOk result (map template_part pieces.new.items
        ≡ with_field (map template_part pieces.old.items) plain.now named) }
{
    add_plain(alloc, pieces, plain)?;
    pieces.push(Piece::Value(named))?;
    Ok(())
}

/// Adds a text.
fn add_plain(alloc: Global, pieces: &mut Vec<Piece>, plain: &str) -> Result<(), AllocError>
    ensures { OnOk result (map template_part pieces.new.items
        ≡ with_text (map template_part pieces.old.items) plain.now) }
{
    pieces.push(Piece::Plain(String::from_str(alloc, plain)?))?;
    Ok(())
}

/// Adds the text of pieces with values put in.
fn add_pieces(
    alloc: Global,
    text: &mut Vec<u8>,
    pieces: &[Piece],
    values: &Values<'_>,
) -> Result<(), AllocError>
    ensures { OnOk result
        (text.new.items ≡ text.old.items ++ filled (map template_part pieces.now) (values_given values.now)) }
{
    for piece in pieces {
        add_piece(alloc, text, piece, values)?;
    }
    Ok(())
}

/// Adds the text of a piece.
fn add_piece(
    alloc: Global,
    text: &mut Vec<u8>,
    piece: &Piece,
    values: &Values<'_>,
) -> Result<(), AllocError>
    ensures { OnOk result
        (text.new.items ≡ text.old.items ++ filled_part (values_given values.now) (template_part piece.now)) }
{
    match piece {
        Piece::Plain(plain) => text.extend_from_slice(plain.as_bytes()),
        Piece::Value(field) => add_value(alloc, text, *field, values),
    }
}

/// Adds the value of a field, as a word of a shell.
fn add_value(
    alloc: Global,
    text: &mut Vec<u8>,
    field: Field,
    values: &Values<'_>,
) -> Result<(), AllocError>
    ensures { OnOk result (text.new.items ≡ text.old.items ++ quoted (field_value (values_given values.now) field)) }
{
    match field {
        Field::Tenant => add_quoted(text, values.tenant.as_bytes()),
        Field::Pipeline => add_quoted(text, values.pipeline.as_bytes()),
        Field::Project => add_quoted(text, values.project.as_bytes()),
        Field::Branch => add_quoted(text, values.branch.as_bytes()),
        Field::Change => add_number(alloc, text, values.change),
        Field::Set => add_number(alloc, text, values.set),
    }
}

/// Adds a number, as a word of a shell.
fn add_number(alloc: Global, text: &mut Vec<u8>, number: u32) -> Result<(), AllocError>
    ensures { OnOk result (text.new.items ≡ text.old.items ++ quoted (decimal number)) }
{
    let written = format!(in alloc; "{number}")?;
    add_quoted(text, written.as_bytes())
}

/// A law: a text has one reading, except for how its plain texts are cut. Any pieces that spell it, none of whose texts
/// has an open brace, write the same for the same values.
pub fn templates_have_one_reading()
    ensures { (whole : List ℕ) → (parts others : List Part) → IsReadingOf whole parts → IsReadingOf whole others
        → (values : Given) → filled parts values ≡ filled others values }
{}

/// A law: whatever values are put into a template, none opens or closes quotes: a shell reads each of them from outside
/// quotes on, and none behind a dollar.
pub fn values_are_read_outside_quotes()
    ensures { (whole : List ℕ) (parts : List Part) → IsReadingOf whole parts → ValuesStandBare parts }
{}
