//! Answers requests by pages.

ghost use Rattle.std.specs.Prelude.{◌≡◌, ◌++◌, ◌⊎◌, OnOk, OnErr, IfOk};
ghost use Rattle.http.specs.Request.{head_of};
ghost use Rattle.http_server.specs.Response.{IsBlank, IsResponse, fields_of};
ghost use Rattle.page_server.specs.Answers.{IsFailure, ShowsPage, IsRefusalResponse, allow_fields, is_for_programs};
ghost use Rattle.page_server.specs.Answers.{is_same};
ghost use Rattle.page_server.specs.Answers.{status_number};
ghost use Rattle.page_server.specs.Fields.{fixed_fields, response_fields};
ghost use Rattle.page_server.specs.Tags.{tag_text};

use super::asked::{Asked, asked_for};
use super::fields::{add, add_fields, add_fixed, add_kept};
use super::pages::Pages;
use super::refusal::{Refusal, problem_kind};
use super::tag::{is_named, tag_of};
use bytes::Bytes;
use http::header::{HeaderMap, HeaderValue};
use http::{Request, StatusCode};
use http_server::{Response, Service};
use page_routes::{Kind, Page, Route, Status};
use std::alloc::{AllocError, Global};

/// Answers requests by pages, for this machine and some hosts.
#[derive(Drop)]
pub struct PageService<'a, P: Pages> {
    pub alloc: Global,
    /// The hosts beside this machine, each without a port.
    pub hosts: &'a [String],
    /// The value of the field `Date`, where it is known.
    pub date: Option<HeaderValue>,
    /// How many bytes the pages have had that were answered so far.
    pub made: u64,
    /// Who makes the pages.
    pub pages: P,
}

impl<P: Pages> Service for PageService<'_, P> {
    ghost use Rattle.std.specs.Prelude.{◌≡◌, map, string_bytes};
    ghost use Rattle.http.specs.Request.{head_of};
    ghost use Rattle.page_server.specs.Answers.{IsAnswered};

    // The request is answered by a refusal, by a page, or by 503; the hosts and the date stay.
    ghost answers = { λ old request response new.
        IsAnswered P.pages P.moves (map string_bytes old.hosts.now) old.date old.pages (head_of request) response new.pages
        × (new.hosts ≡ old.hosts) × (new.date ≡ old.date) };

    fn call(
        &mut self,
        request: &Request<Bytes>,
        response: &mut Response,
    ) -> Result<(), AllocError> {
        match asked_for(self.alloc, self.hosts, request)? {
            Asked::Page(route) => {
                let for_programs = is_for_programs(request);
                self.show(request.headers(), &route, for_programs, response);
                self.made = self.made.saturating_add(response.body.len() as u64);
                Ok(())
            }
            Asked::Refused(refusal) => self.refuse(refusal, is_for_programs(request), response),
        }
    }
}

/// Whether a request is one of a program.
fn is_for_programs(request: &Request<Bytes>) -> bool
    ensures { result ≡ is_for_programs (head_of request.now) }
{
    request.uri().path().as_bytes().starts_with(b"/api/")
}

impl<P: Pages> PageService<'_, P> {
    ghost use Rattle.std.specs.Prelude.{◌≡◌, ◌⊎◌, OnOk, OnErr};
    ghost use Rattle.page_routes.specs.declared.page.Page.{Page};
    ghost use Rattle.page_server.specs.Answers.{IsFailure, ShowsPage, IsRefusalResponse, Leaves, Shows};
    ghost use Rattle.page_server.specs.declared.refusal.Refusal.TheVariants.{NoMemory};
    ghost use Rattle.http_server.specs.Response.{IsBlank};

    /// Answers by a page, or by 503 where memory is refused.
    fn show(
        &mut self,
        headers: &HeaderMap<HeaderValue>,
        route: &Route,
        for_programs: bool,
        response: &mut Response,
    )
        requires { IsBlank response.old }
        ensures shows { Shows P.pages P.moves headers.now self.old.date self.old.pages route.now for_programs
            response.new self.new.pages }
        ensures hosts { self.new.hosts ≡ self.old.hosts }
        ensures date { self.new.date ≡ self.old.date }
    {
        match self.pages.page(route) {
            Ok(page) => self.send(headers, page, for_programs, response),
            Err(AllocError) => fail(response, for_programs, &self.date),
        }
    }

    /// Answers by a page, or by 503 where memory is refused.
    fn send(
        &self,
        headers: &HeaderMap<HeaderValue>,
        page: Page,
        for_programs: bool,
        response: &mut Response,
    )
        requires { IsBlank response.old }
        ensures { ShowsPage headers.now page self.now.date response.new
            ⊎ IsFailure for_programs self.now.date response.new }
    {
        if fill(self.alloc, headers, response, page, &self.date).is_err() {
            fail(response, for_programs, &self.date);
        }
    }

    /// Answers why there is no page.
    fn refuse(
        &mut self,
        refusal: Refusal,
        for_programs: bool,
        response: &mut Response,
    ) -> Result<(), AllocError>
        requires { IsBlank response.old }
        ensures is { OnOk result (IsRefusalResponse refusal for_programs self.old.date response.new) }
        ensures leaves { OnOk result (Leaves P.pages P.moves refusal self.old.pages self.new.pages) }
        ensures hosts { self.new.hosts ≡ self.old.hosts }
        ensures date { self.new.date ≡ self.old.date }
        ensures err { OnErr result (self.new ≡ self.old) }
    {
        add_refusal(response, refusal, for_programs, &self.date)?;
        match refusal {
            Refusal::OtherHost => self.pages.refused_host(),
            Refusal::NoHost | Refusal::OtherMethod | Refusal::NoPage | Refusal::NoMemory => {}
        }
        Ok(())
    }
}

/// Answers that memory was refused.
fn fail(response: &mut Response, for_programs: bool, date: &Option<HeaderValue>)
    ensures { IsFailure for_programs date.now response.new }
{
    response.clear();
    if add_refusal(response, Refusal::NoMemory, for_programs, date).is_err() {
        response.clear();
        response.status = StatusCode::SERVICE_UNAVAILABLE;
    }
}

/// Fills a response by what a request with these fields is shown of a page.
fn fill(
    alloc: Global,
    headers: &HeaderMap<HeaderValue>,
    response: &mut Response,
    page: Page,
    date: &Option<HeaderValue>,
) -> Result<(), AllocError>
    requires { IsBlank response.old }
    ensures { OnOk result (ShowsPage headers.now page date.now response.new) }
{
    if !is_same(page.kind) {
        return fill_made(response, page, date);
    }
    let tag = tag_of(alloc, page.body.as_slice())?;
    let value = value_of(alloc, tag.as_str())?;
    if is_named(headers, tag.as_str().as_bytes()) {
        response.status = StatusCode::NOT_MODIFIED;
        return add_kept(response, value, date);
    }
    fill_fixed(response, page, value, date)
}

/// Whether texts of a kind stay the same while the site runs.
fn is_same(kind: Kind) -> bool
    ensures { result ≡ is_same kind }
{
    matches!(kind, Kind::Style | Kind::Script | Kind::Icon)
}

/// A text as the value of a field.
fn value_of(alloc: Global, text: &str) -> Result<HeaderValue, AllocError>
    ensures { IfOk result (λ value. value.bytes ≡ text.now) }
{
    match HeaderValue::from_bytes(alloc, text.as_bytes()) {
        Ok(value) => Ok(value),
        Err(_) => Err(AllocError),
    }
}

/// Fills a response by a page that is made for the request.
fn fill_made(
    response: &mut Response,
    page: Page,
    date: &Option<HeaderValue>,
) -> Result<(), AllocError>
    requires { IsBlank response.old }
    ensures { OnOk result (IsResponse (status_number page.status) (response_fields page.kind date.now) page.body.items
        response.new) }
{
    let Page { status, kind, body } = page;
    response.status = status_of(status);
    add_fields(response, kind, date)?;
    put_body(response, body)
}

/// Fills a response by a page that stays the same and has this entity tag.
fn fill_fixed(
    response: &mut Response,
    page: Page,
    tag: HeaderValue,
    date: &Option<HeaderValue>,
) -> Result<(), AllocError>
    requires blank { IsBlank response.old }
    requires tag { tag.bytes ≡ tag_text page.body.items }
    ensures { OnOk result (IsResponse (status_number page.status) (fixed_fields page.kind page.body.items date.now)
        page.body.items response.new) }
{
    let Page { status, kind, body } = page;
    response.status = status_of(status);
    add_fixed(response, kind, tag, date)?;
    put_body(response, body)
}

/// The code of a page's status.
fn status_of(status: Status) -> StatusCode
    ensures { result ≡ status_number status }
{
    match status {
        Status::Found => StatusCode::OK,
        Status::NotFound => StatusCode::NOT_FOUND,
        Status::Unavailable => StatusCode::SERVICE_UNAVAILABLE,
    }
}

/// Fills a response by a refusal.
fn add_refusal(
    response: &mut Response,
    refusal: Refusal,
    for_programs: bool,
    date: &Option<HeaderValue>,
) -> Result<(), AllocError>
    requires { IsBlank response.old }
    ensures { OnOk result (IsRefusalResponse refusal for_programs date.now response.new) }
{
    response.status = refusal.status();
    add_fields(response, problem_kind(for_programs), date)?;
    add_methods(response, refusal)?;
    put(response, Bytes::from_static(refusal.text(for_programs)))
}

/// Adds which methods there are, where another one is refused.
fn add_methods(response: &mut Response, refusal: Refusal) -> Result<(), AllocError>
    ensures fields { OnOk result (fields_of response.new ≡ fields_of response.old ++ allow_fields refusal) }
    ensures status { response.new.status ≡ response.old.status }
    ensures body { response.new.body ≡ response.old.body }
{
    match refusal {
        Refusal::OtherMethod => add(response, "allow", "GET, HEAD"),
        Refusal::NoHost | Refusal::OtherHost | Refusal::NoPage | Refusal::NoMemory => Ok(()),
    }
}

/// Adds the bytes of a page to the body.
fn put_body(response: &mut Response, body: Vec<u8>) -> Result<(), AllocError>
    ensures items { OnOk result (response.new.body.items ≡ response.old.body.items ++ body.items) }
    ensures fields { fields_of response.new ≡ fields_of response.old }
    ensures status { response.new.status ≡ response.old.status }
{
    put(response, Bytes::from_vec(body)?)
}

/// Adds bytes to the body.
fn put(response: &mut Response, bytes: Bytes) -> Result<(), AllocError>
    ensures items { OnOk result (response.new.body.items ≡ response.old.body.items ++ bytes) }
    ensures fields { fields_of response.new ≡ fields_of response.old }
    ensures status { response.new.status ≡ response.old.status }
{
    response.body.push(bytes)
}
