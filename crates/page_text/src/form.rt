//! The form in which a list is asked for.

ghost use Rattle.page_text.specs.Rowless.{AddsRowless, IsRowless};

use super::names::{KINDS, REASONS, reason_name, shown_name};
use super::template::fill;
use markup_text::{Markup, Piece};
use page_routes::{Choice, Reason, Shown};

/// The form up to the kinds of items, with a place for the words.
const FIRST: &str = r#"<form action="/" method="get" role="search">
<p><label for="q">Subject or number</label><input id="q" name="q" type="search" maxlength="200" value="{}"></p>
<p><label for="show">Items</label><select id="show" name="show">
"#;

/// What comes between the kinds of items and the reasons.
const REASONS_BEGIN: &str = r#"</select></p>
<p><label for="reason">Why they wait</label><select id="reason" name="reason">
<option value="">any reason</option>
"#;

/// What comes after the reasons.
const LAST: &str = r#"</select></p>
<p><button type="submit">Show</button></p>
</form>
"#;

/// Adds the form, with what is asked for filled in.
pub fn add_form(page: &mut Markup, choice: &Choice)
    ensures { AddsRowless page.old page.new }
{
    let words = match &choice.words {
        Some(words) => words.as_str(),
        None => "",
    };
    fill(page, FIRST, &[Piece::Text(words)]);
    add_kinds(page, choice.shown);
    page.add(&[Piece::Markup(REASONS_BEGIN)]);
    add_reasons(page, choice.reason);
    page.add(&[Piece::Markup(LAST)]);
}

/// Adds the kinds of items that can be chosen.
fn add_kinds(page: &mut Markup, shown: Shown)
    ensures { AddsRowless page.old page.new }
{
    for kind in KINDS {
        add_option(page, shown_name(kind), kind == shown);
    }
}

/// Adds the reasons that can be chosen.
fn add_reasons(page: &mut Markup, asked: Option<Reason>)
    ensures { AddsRowless page.old page.new }
{
    for reason in REASONS {
        add_option(page, reason_name(reason), asked == Some(reason));
    }
}

/// Adds what can be chosen.
fn add_option(page: &mut Markup, name: &'static str, is_chosen: bool)
    requires { IsRowless name.now }
    ensures { AddsRowless page.old page.new }
{
    let name = Piece::Markup(name);
    if is_chosen {
        fill(page, "<option selected>{}</option>\n", &[name]);
    } else {
        fill(page, "<option>{}</option>\n", &[name]);
    }
}
