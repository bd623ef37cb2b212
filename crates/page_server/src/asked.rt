//! What a request asks for.

ghost use Rattle.std.specs.Prelude.{◌≡◌, IfErr, IfOk, OnOk, map, string_bytes};
ghost use Rattle.std.specs.Option.{option_copied};
ghost use Rattle.http.specs.Request.{head_of};
ghost use Rattle.page_routes.specs.Numbers.{FindsNumber};
ghost use Rattle.page_routes.specs.Routes.{IsRoute};
ghost use Rattle.page_server.specs.Asked.{IsRequestFor, IsForThisHost, are_own, host_field, is_own_target, is_read};

use super::hosts::is_own;
use super::refusal::Refusal;
use bytes::Bytes;
use http::header::{HOST, HeaderMap, HeaderValue};
use http::{Method, Request, Uri};
use page_routes::{Route, route_of};
use std::alloc::{AllocError, Global};

/// What a request asks for.
#[derive(Debug, Drop)]
pub enum Asked {
    /// A page.
    Page(Route),
    /// No page: the request is refused.
    Refused(Refusal),
}

/// What a request asks for, for this machine and these hosts. It has to name one `Host`, which is this machine or one
/// of these, and so has the target's host where that is in absolute form: else it is refused by 400 and 421. Then its
/// method has to be `GET` or `HEAD`, else it is refused by 405; and its target has to name a page, else by 404. Its
/// body doesn't matter.
pub fn asked_for(
    alloc: Global,
    hosts: &[String],
    request: &Request<Bytes>,
) -> Result<Asked, AllocError>
    ensures { IfOk result (IsRequestFor (map string_bytes hosts.now) (head_of request.now)) }
{
    if let Err(refusal) = trust(hosts, request) {
        return Ok(Asked::Refused(refusal));
    }
    if !is_read(request.method()) {
        return Ok(Asked::Refused(Refusal::OtherMethod));
    }
    let uri = request.uri();
    match route_of(alloc, uri.path(), uri.query())? {
        Some(route) => Ok(Asked::Page(route)),
        None => Ok(Asked::Refused(Refusal::NoPage)),
    }
}

/// Refuses a request that doesn't name one host, or names another host than this machine or these.
fn trust(hosts: &[String], request: &Request<Bytes>) -> Result<(), Refusal>
    ensures own { OnOk result (IsForThisHost (map string_bytes hosts.now) (head_of request.now)) }
    ensures others { IfErr result
        (λ refusal. IsRequestFor (map string_bytes hosts.now) (head_of request.now) (Asked.Refused refusal)) }
{
    let Some(host) = host_field(request.headers()) else {
        return Err(Refusal::NoHost);
    };
    if are_own(hosts, host, request.uri()) {
        Ok(())
    } else {
        Err(Refusal::OtherHost)
    }
}

/// Whether a host and a target are both of this machine or of these hosts.
fn are_own(hosts: &[String], host: &[u8], uri: &Uri) -> bool
    ensures { result ≡ are_own (map string_bytes hosts.now) host.now uri.now }
{
    is_own(hosts, host) && is_own_target(hosts, uri)
}

/// The value of the field `Host`, if there is just one.
fn host_field(headers: &HeaderMap<HeaderValue>) -> Option<&[u8]>
    ensures { option_copied result ≡ host_field headers.now }
{
    let mut values = headers.get_all(HOST).iter();
    match (values.next(), values.next()) {
        (Some(value), None) => Some(value.as_bytes()),
        _ => None,
    }
}

/// Whether a target is of this machine or one of these hosts, where it names a host.
fn is_own_target(hosts: &[String], uri: &Uri) -> bool
    ensures { result ≡ is_own_target (map string_bytes hosts.now) uri.now }
{
    match uri.authority() {
        Some(authority) => is_own(hosts, authority.as_str().as_bytes()),
        None => true,
    }
}

/// Whether a method is `GET` or `HEAD`.
fn is_read(method: &Method) -> bool
    ensures { result ≡ is_read method.now }
{
    method.as_str() == "GET" || method.as_str() == "HEAD"
}
