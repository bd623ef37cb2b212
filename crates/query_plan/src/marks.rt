//! What is kept of a change.

ghost use Rattle.std.specs.Prelude.{◌≡◌};
ghost use Rattle.query_plan.specs.Marks.{as_failed, as_listed, as_repeated, as_slow, as_unlisted, as_waiting, rests};
ghost use Rattle.query_plan.specs.Marks.{unmarked, with_event};

/// What is kept of a change. Times are seconds.
#[derive(Clone, Copy, Debug, PartialEq, Eq)]
pub struct Marks {
    /// It waits to be queried.
    pub waits: bool,
    /// It had an event, or a query of all changes listed it.
    pub is_known: bool,
    /// Until when it rests, unless it has an event: after a whole answer that didn't list it, or, if it is known, after
    /// its own query failed.
    pub rests_until: u64,
    /// Until when it rests after its own query took too long.
    pub slow_until: u64,
    /// In which round its own query failed; it rests for the rest of that.
    pub failed_in: Option<u64>,
    /// How often its own query was repeated.
    pub repeats: u8,
}

impl Marks {
    /// Nothing is kept.
    pub fn none() -> Marks
        ensures { result ≡ unmarked }
    {
        Marks {
            waits: false,
            is_known: false,
            rests_until: 0,
            slow_until: 0,
            failed_in: None,
            repeats: 0,
        }
    }

    /// It had an event, so it is there, and may have come to be listed.
    pub fn with_event(self) -> Marks
        ensures { result ≡ with_event self }
    {
        Marks {
            is_known: true,
            rests_until: 0,
            ..self
        }
    }

    /// It waits from now on.
    pub fn waiting(self) -> Marks
        ensures { result ≡ as_waiting self }
    {
        Marks {
            waits: true,
            ..self
        }
    }

    /// A whole answer listed it, to a query of all changes or of some.
    pub fn listed(self, is_all: bool) -> Marks
        ensures { result ≡ as_listed is_all self }
    {
        Marks {
            is_known: self.is_known || is_all,
            ..Marks::none()
        }
    }

    /// A whole answer to a query that named it didn't list it.
    pub fn unlisted(self, until: u64) -> Marks
        ensures { result ≡ as_unlisted until self }
    {
        Marks {
            waits: false,
            rests_until: until,
            ..self
        }
    }

    /// Its own query is repeated.
    pub fn repeated(self) -> Marks
        ensures { result ≡ as_repeated self }
    {
        Marks {
            repeats: self.repeats.saturating_add(1),
            ..self
        }
    }

    /// Its own query took too long. It waits on if it is known.
    pub fn slow(self, until: u64) -> Marks
        ensures { result ≡ as_slow until self }
    {
        Marks {
            waits: self.waits && self.is_known,
            slow_until: until,
            repeats: 0,
            ..self
        }
    }

    /// Its own query failed in this round. If it is known, it waits on, and rests until this time or its next event.
    pub fn failed(self, round: u64, until: u64) -> Marks
        ensures { result ≡ as_failed round until self }
    {
        Marks {
            waits: self.waits && self.is_known,
            rests_until: if self.is_known {
                until
            } else {
                self.rests_until
            },
            failed_in: Some(round),
            repeats: 0,
            ..self
        }
    }

    /// Whether it isn't to be queried by its number now.
    pub fn rests(self, now: u64, round: u64) -> bool
        ensures { result ≡ rests now round self }
    {
        now < self.rests_until || now < self.slow_until || self.failed_in == Some(round)
    }
}
