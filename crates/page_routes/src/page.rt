//! The type of an answer.

/// A page that is answered.
#[derive(Debug, Drop)]
pub struct Page {
    pub status: Status,
    pub kind: Kind,
    pub body: Vec<u8>,
}

/// The HTTP status of a page.
#[derive(Clone, Copy, Debug, PartialEq, Eq)]
pub enum Status {
    /// 200.
    Found,
    /// 404.
    NotFound,
    /// 503.
    Unavailable,
}

/// The content type of a page.
#[derive(Clone, Copy, Debug, PartialEq, Eq)]
pub enum Kind {
    /// `text/html; charset=utf-8`
    Html,
    /// `application/json`
    Json,
    /// `application/problem+json`
    Problem,
    /// `text/plain; version=0.0.4; charset=utf-8`
    Metrics,
    /// `text/event-stream`
    Events,
    /// `text/css; charset=utf-8`
    Style,
    /// `text/javascript; charset=utf-8`
    Script,
    /// `image/svg+xml`
    Icon,
    /// `text/plain; charset=utf-8`
    Plain,
}
