//! The routes of a site's pages.

/// What a request asks for.
#[derive(Debug, PartialEq, Eq, Drop)]
pub enum Route {
    /// The list of the items, as a page for people.
    List(Choice),
    /// A change, or one of its patch sets, as a page for people.
    Change(Place),
    /// The status of the site, as JSON.
    Status,
    /// The items, as JSON.
    Items(Choice),
    /// A change, or one of its patch sets, as JSON.
    ChangeData(Place),
    /// What changed, as server-sent events.
    Events,
    /// The metrics of the site, in the text format of Prometheus.
    Metrics,
    /// The health check.
    Health,
    /// The style of the pages.
    Style,
    /// The script of the pages.
    Script,
    /// The icon of the pages.
    Icon,
}

/// A change, and which of its patch sets; the current one where none is named.
#[derive(Clone, Copy, Debug, PartialEq, Eq)]
pub struct Place {
    pub change: u32,
    pub set: Option<u32>,
}

/// Which items are asked for.
#[derive(Debug, PartialEq, Eq, Drop)]
pub struct Choice {
    /// Which kind of them.
    pub shown: Shown,
    /// Why they wait, where only one reason is asked for.
    pub reason: Option<Reason>,
    /// What their subject or change number contains, without regard to the case of ASCII letters.
    pub words: Option<String>,
    /// Which page of them, from 1. A page has 100 items.
    pub page: u32,
}

/// Which kind of items.
#[derive(Clone, Copy, Debug, PartialEq, Eq)]
pub enum Shown {
    /// Those that aren't over: ready, or waiting for something that can still come. What a request that names no kind
    /// asks for.
    Open,
    /// Those that are ready.
    Ready,
    /// All.
    All,
}

/// Why an item waits.
#[derive(Clone, Copy, Debug, PartialEq, Eq)]
pub enum Reason {
    /// A condition that it must meet.
    Require,
    /// A condition that it must not meet.
    Reject,
    /// A cycle of dependencies.
    Cycle,
    /// A change that it depends on isn't known.
    Unknown,
    /// An item that it depends on isn't ready.
    Dependency,
}
