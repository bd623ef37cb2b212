//! The fields of a response.

ghost use Rattle.std.specs.Prelude.{◌≡◌, ◌∷◌, ◌++◌, [], IsTrue, OnOk, codes, true};
ghost use Rattle.http_header.specs.FieldValue.{is_visible_text};
ghost use Rattle.http_header.specs.FieldName.{is_header_name};
ghost use Rattle.http_server.specs.Response.{fields_of};
ghost use Rattle.page_server.specs.Fields.{cache_fields, common_fields, date_fields, guard_fields, kind_text};
ghost use Rattle.page_server.specs.Fields.{response_fields};

use http::header::{CONTENT_TYPE, DATE, ETAG, HeaderName, HeaderValue};
use http_server::Response;
use page_routes::Kind;
use std::alloc::AllocError;

/// Adds the fields of a text of this kind that is made for a request and sent at this date.
pub(crate) fn add_fields(
    response: &mut Response,
    kind: Kind,
    date: &Option<HeaderValue>,
) -> Result<(), AllocError>
    ensures fields { OnOk result (fields_of response.new ≡ fields_of response.old ++ response_fields kind date.now) }
    ensures status { response.new.status ≡ response.old.status }
    ensures body { response.new.body ≡ response.old.body }
{
    response.add_header(CONTENT_TYPE, kind_value(kind))?;
    add_common(response, false, date)
}

/// Adds the fields of a text that stays the same, has this kind and this entity tag, and is sent at this date.
pub(crate) fn add_fixed(
    response: &mut Response,
    kind: Kind,
    tag: HeaderValue,
    date: &Option<HeaderValue>,
) -> Result<(), AllocError>
    ensures fields { OnOk result (fields_of response.new ≡ fields_of response.old
        ++ (codes "content-type", kind_text kind) ∷ (common_fields true date.now ++ (codes "etag", tag.bytes) ∷ [])) }
    ensures status { response.new.status ≡ response.old.status }
    ensures body { response.new.body ≡ response.old.body }
{
    response.add_header(CONTENT_TYPE, kind_value(kind))?;
    add_kept(response, tag, date)
}

/// Adds the fields of a text that stays the same and has this entity tag, where a browser has kept it.
pub(crate) fn add_kept(
    response: &mut Response,
    tag: HeaderValue,
    date: &Option<HeaderValue>,
) -> Result<(), AllocError>
    ensures fields { OnOk result (fields_of response.new ≡ fields_of response.old
        ++ (common_fields true date.now ++ (codes "etag", tag.bytes) ∷ [])) }
    ensures status { response.new.status ≡ response.old.status }
    ensures body { response.new.body ≡ response.old.body }
{
    add_common(response, true, date)?;
    response.add_header(ETAG, tag)
}

/// Adds the fields of all responses, where a browser may keep the text or not.
fn add_common(
    response: &mut Response,
    may_keep: bool,
    date: &Option<HeaderValue>,
) -> Result<(), AllocError>
    ensures fields { OnOk result (fields_of response.new ≡ fields_of response.old ++ common_fields may_keep date.now) }
    ensures status { response.new.status ≡ response.old.status }
    ensures body { response.new.body ≡ response.old.body }
{
    add_cache(response, may_keep)?;
    add_guards(response)?;
    add_date(response, date)
}

/// Adds the field that says whether a browser may keep the text.
fn add_cache(response: &mut Response, may_keep: bool) -> Result<(), AllocError>
    ensures fields { OnOk result (fields_of response.new ≡ fields_of response.old ++ cache_fields may_keep) }
    ensures status { response.new.status ≡ response.old.status }
    ensures body { response.new.body ≡ response.old.body }
{
    if may_keep {
        return add(response, "cache-control", "no-cache");
    }
    add(response, "cache-control", "no-store")
}

/// Adds the fields by which a browser keeps a page from others.
fn add_guards(response: &mut Response) -> Result<(), AllocError>
    ensures fields { OnOk result (fields_of response.new ≡ fields_of response.old ++ guard_fields) }
    ensures status { response.new.status ≡ response.old.status }
    ensures body { response.new.body ≡ response.old.body }
{
    add(response, "x-content-type-options", "nosniff")?;
    add(response, "referrer-policy", "no-referrer")?;
    add(response, "cross-origin-resource-policy", "same-origin")?;
    add(response, "content-security-policy", POLICY)?;
    Ok(())
}

/// Where the parts of a page may come from (Content Security Policy).
const POLICY: &str =
    "default-src 'none'; style-src 'self'; script-src 'self'; connect-src 'self'; img-src 'self'; \
    form-action 'self'; base-uri 'none'; frame-ancestors 'none'";

/// Adds a field.
pub(crate) fn add(
    response: &mut Response,
    name: &'static str,
    value: &'static str,
) -> Result<(), AllocError>
    requires name { IsTrue (is_header_name name.now) }
    requires value { IsTrue (is_visible_text value.now) }
    ensures fields { OnOk result (fields_of response.new ≡ fields_of response.old ++ (name.now, value.now) ∷ []) }
    ensures status { response.new.status ≡ response.old.status }
    ensures body { response.new.body ≡ response.old.body }
{
    response.add_header(
        HeaderName::from_static(name),
        HeaderValue::from_static(value),
    )
}

/// Adds the date, where it is known.
fn add_date(response: &mut Response, date: &Option<HeaderValue>) -> Result<(), AllocError>
    ensures fields { OnOk result (fields_of response.new ≡ fields_of response.old ++ date_fields date.now) }
    ensures status { response.new.status ≡ response.old.status }
    ensures body { response.new.body ≡ response.old.body }
{
    match date {
        Some(date) => response.add_header(DATE, date.clone()?),
        None => Ok(()),
    }
}

/// The name of a kind.
fn kind_value(kind: Kind) -> HeaderValue
    ensures { result.bytes ≡ kind_text kind }
{
    HeaderValue::from_static(match kind {
        Kind::Html => "text/html; charset=utf-8",
        Kind::Json => "application/json",
        Kind::Problem => "application/problem+json",
        Kind::Metrics => "text/plain; version=0.0.4; charset=utf-8",
        Kind::Events => "text/event-stream",
        Kind::Style => "text/css; charset=utf-8",
        Kind::Script => "text/javascript; charset=utf-8",
        Kind::Icon => "image/svg+xml",
        Kind::Plain => "text/plain; charset=utf-8",
    })
}
