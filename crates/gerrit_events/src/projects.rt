//! Which projects are fed.

ghost use Rattle.std.specs.List.{list_any};
ghost use Rattle.std.specs.Prelude.{◌≡◌, None, Some, map, option_map, string_bytes};
ghost use Rattle.std.specs.Str.{bytes_eq};
ghost use Rattle.gerrit_events.specs.Projects.{feeds_change, feeds_named, has_project};
ghost use Rattle.gerrit_events.specs.Trees.{data_in};

use super::tree::member;
use super::value::text_in;
use json::Value;
use std::marker::Model;

/// The projects whose changes are fed: all, or those that are named, by Gerrit's names.
#[derive(Debug, Drop)]
pub struct Projects {
    names: Option<Vec<String>>,
}

impl Model for Projects {
    ghost use Rattle.std.specs.Prelude.{map, option_map, string_bytes};
    ghost use Rattle.gerrit_events.specs.Projects.{Choice};

    ghost Value = { Choice };

    ghost view = { λ projects. option_map (λ names. map string_bytes names.items) projects.names };
}

impl Projects {
    /// All projects.
    pub fn all() -> Projects
        ensures { result ≡ None }
    {
        Projects { names: None }
    }

    /// Those with these names, and no other.
    pub fn named(names: Vec<String>) -> Projects
        ensures { result ≡ Some (map string_bytes names.items) }
    {
        Projects { names: Some(names) }
    }

    /// Whether a project is among them. It costs O(n) for n bytes of the names.
    pub fn has(&self, name: &str) -> bool
        ensures { result ≡ has_project self.now name.now }
    {
        match &self.names {
            None => true,
            Some(names) => is_among(names, name),
        }
    }

    /// Whether a change is fed, by its attribute. A line without one is read.
    pub fn feeds(&self, change: Option<&Value<'_>>) -> bool
        ensures { result ≡ feeds_change self.now (option_map (λ value. data_in value.now) change.entry) }
    {
        match change {
            None => true,
            Some(change) => self.feeds_named(text_in(member(change, "project"))),
        }
    }

    /// Whether a change of this project is fed; one whose project isn't said is of none.
    fn feeds_named(&self, name: Option<&str>) -> bool
        ensures { result ≡ feeds_named self.now (option_map (λ text. text.now) name.entry) }
    {
        match name {
            None => self.names.is_none(),
            Some(name) => self.has(name),
        }
    }
}

/// Whether a name is among these.
fn is_among(names: &[String], name: &str) -> bool
    ensures { result ≡ list_any (bytes_eq name.now) (map (λ text. string_bytes text) names.now) }
{
    for other in names {
        if is_name(other, name) {
            return true;
        }
    }
    false
}

/// Whether a name is this one.
fn is_name(other: &String, name: &str) -> bool
    ensures { result ≡ bytes_eq name.now (string_bytes other.now) }
{
    name == other.as_str()
}
