//! A warning of a gate.

ghost use Rattle.std.specs.Prelude.{◌≡◌, ◌++◌, IfOk, OnOk, option_map, string_bytes};
ghost use Rattle.json_line.specs.Tokens.{AddsTokens};
ghost use Rattle.gate_check.specs.Checked.{detail_tokens, kind_tokens, warning_tokens, worded_if};
ghost use Rattle.gate_check.specs.Warnings.{Found, about_words, nearest_words, warning_line};

use super::warning::Warning;
use super::words::json_text;
use json::Writer;
use json_line::{close_object, open_object, put_number, put_text};
use lattice_core::NoMemory;
use std::alloc::Global;
use std::marker::Model;

/// A warning: its kind, a place of the gate file, what it is about, where it is about something, and the nearest name
/// that the record has, where one is near enough.
#[derive(Drop)]
pub struct Finding {
    warning: Warning,
    place: String,
    about: Option<String>,
    nearest: Option<String>,
}

impl Model for Finding {
    ghost Value = { Found };

    ghost view = { λ finding. record {
      warning = finding.warning;
      place = string_bytes finding.place;
      about = option_map string_bytes finding.about;
      nearest = option_map string_bytes finding.nearest;
    } };
}

impl Finding {
    /// A warning of a place.
    pub fn new(
        alloc: Global,
        warning: Warning,
        place: &str,
        about: Option<&str>,
        nearest: Option<&str>,
    ) -> Result<Finding, NoMemory>
        ensures { IfOk result (λ finding. finding ≡ record {
          warning = warning;
          place = place.now;
          about = option_map (λ text. text.now) about.entry;
          nearest = option_map (λ text. text.now) nearest.entry;
        }) }
    {
        Ok(Finding {
            warning,
            place: String::from_str(alloc, place)?,
            about: copied(alloc, about)?,
            nearest: copied(alloc, nearest)?,
        })
    }

    /// Its line, without the LF.
    pub fn line(&self, alloc: Global) -> Result<String, NoMemory>
        ensures { IfOk result (λ line. string_bytes line ≡ warning_line self.now) }
    {
        let number = self.warning.number();
        let name = self.warning.name();
        let place = self.place.as_str();
        let about = about_words(alloc, &self.about)?;
        let nearest = nearest_words(alloc, &self.nearest)?;
        Ok(format!(in alloc; "warning {number} {name} {place}{about}{nearest}")?)
    }

    /// Adds it as a JSON object.
    pub fn put(&self, out: &mut Writer<Global>) -> Result<(), NoMemory>
        ensures { OnOk result (AddsTokens out.old out.new (warning_tokens self.now)) }
    {
        open_object(out)?;
        self.put_kind(out)?;
        self.put_details(out)?;
        close_object(out)?;
        Ok(())
    }

    /// Adds its number, its name and its place.
    fn put_kind(&self, out: &mut Writer<Global>) -> Result<(), NoMemory>
        ensures { OnOk result (AddsTokens out.old out.new (kind_tokens self.now)) }
    {
        put_number(out, "number", u64::from(self.warning.number()))?;
        put_text(out, "name", self.warning.name())?;
        put_text(out, "place", self.place.as_str())?;
        Ok(())
    }

    /// Adds what it is about, and the nearest name, where there are these.
    fn put_details(&self, out: &mut Writer<Global>) -> Result<(), NoMemory>
        ensures { OnOk result (AddsTokens out.old out.new (detail_tokens self.now)) }
    {
        put_if(out, "about", &self.about)?;
        put_if(out, "nearest", &self.nearest)?;
        Ok(())
    }
}

/// A text, where there is one.
fn copied(alloc: Global, text: Option<&str>) -> Result<Option<String>, NoMemory>
    ensures { IfOk result
        (λ copy. option_map string_bytes copy ≡ option_map (λ other. other.now) text.entry) }
{
    match text {
        Some(text) => Ok(Some(String::from_str(alloc, text)?)),
        None => Ok(None),
    }
}

/// What a warning is about, where it is about something.
fn about_words(alloc: Global, about: &Option<String>) -> Result<String, NoMemory>
    ensures { IfOk result (λ words. string_bytes words ≡ about_words (option_map string_bytes about.now)) }
{
    let Some(text) = about else {
        return Ok(String::new(alloc));
    };
    let quoted = json_text(alloc, text.as_str())?;
    Ok(format!(in alloc; " {quoted}")?)
}

/// The nearest name, where there is one.
fn nearest_words(alloc: Global, nearest: &Option<String>) -> Result<String, NoMemory>
    ensures { IfOk result (λ words. string_bytes words ≡ nearest_words (option_map string_bytes nearest.now)) }
{
    let Some(text) = nearest else {
        return Ok(String::new(alloc));
    };
    let quoted = json_text(alloc, text.as_str())?;
    Ok(format!(in alloc; " nearest {quoted}")?)
}

/// Adds a text under a key, where there is one.
fn put_if(out: &mut Writer<Global>, key: &str, text: &Option<String>) -> Result<(), NoMemory>
    ensures { OnOk result (AddsTokens out.old out.new (worded_if key.now (option_map string_bytes text.now))) }
{
    match text {
        Some(text) => put_text(out, key, text.as_str()),
        None => Ok(()),
    }
}
