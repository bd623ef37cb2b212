//! Which items a query asks for.

ghost use Rattle.std.specs.Prelude.{◌≡◌, IfOk, string_bytes};
ghost use Rattle.std.specs.Option.{option_copied};
ghost use Rattle.page_routes.specs.Choices.{Chooses, IsChoice, IsPageNumber, IsReasonValue, IsShowValue, IsWords};
ghost use Rattle.page_routes.specs.Numbers.{FindsNumber};

use super::form::given;
use super::number::{is_text, number_of};
use super::route::{Choice, Reason, Shown};
use std::alloc::{AllocError, Global};

/// The maximum length of the search words, in bytes.
const MAX_WORDS: usize = 200;

/// Which items a query asks for; nothing where a value is none of those that its key takes.
pub(crate) fn choice_of(alloc: Global, query: Option<&str>) -> Result<Option<Choice>, AllocError>
    ensures { IfOk result (FindsNumber (IsChoice (option_copied query.entry))) }
{
    let show = given(alloc, "show", query)?;
    let reason = given(alloc, "reason", query)?;
    let words = given(alloc, "q", query)?;
    let page = given(alloc, "page", query)?;
    Ok(chosen(show.as_str(), reason.as_str(), words, page.as_str()))
}

/// Which items these values ask for.
fn chosen(show: &str, reason: &str, words: String, page: &str) -> Option<Choice>
    ensures { FindsNumber (Chooses show.now reason.now (string_bytes words) page.now) result }
{
    let shown = shown_of(show)?;
    let reason = reason_of(reason)?;
    let words = words_of(words)?;
    let page = page_of(page)?;
    Some(Choice {
        shown,
        reason,
        words,
        page,
    })
}

/// Which kind of items the value of `show` asks for.
fn shown_of(text: &str) -> Option<Shown>
    ensures { FindsNumber (IsShowValue text.now) result }
{
    if is_text(text, "") || is_text(text, "open") {
        return Some(Shown::Open);
    }
    if is_text(text, "ready") {
        return Some(Shown::Ready);
    }
    if is_text(text, "all") {
        return Some(Shown::All);
    }
    None
}

/// Which reason the value of `reason` asks for.
fn reason_of(text: &str) -> Option<Option<Reason>>
    ensures { FindsNumber (IsReasonValue text.now) result }
{
    if is_text(text, "") {
        return Some(None);
    }
    if is_text(text, "require") {
        return Some(Some(Reason::Require));
    }
    if is_text(text, "reject") {
        return Some(Some(Reason::Reject));
    }
    if is_text(text, "cycle") {
        return Some(Some(Reason::Cycle));
    }
    if is_text(text, "unknown") {
        return Some(Some(Reason::Unknown));
    }
    if is_text(text, "dependency") {
        return Some(Some(Reason::Dependency));
    }
    None
}

/// Which words the value of `q` asks for.
fn words_of(text: String) -> Option<Option<String>>
    ensures { FindsNumber (IsWords (string_bytes text)) result }
{
    if text.is_empty() {
        return Some(None);
    }
    if text.len() > MAX_WORDS {
        return None;
    }
    Some(Some(text))
}

/// Which page the value of `page` asks for.
fn page_of(text: &str) -> Option<u32>
    ensures { FindsNumber (IsPageNumber text.now) result }
{
    if is_text(text, "") {
        return Some(1);
    }
    let page = number_of(text)?;
    if page == 0 { None } else { Some(page) }
}
