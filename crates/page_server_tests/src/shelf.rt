//! Pages that are the same each time.

ghost use Rattle.std.specs.Prelude.{◌≡◌};

use page_routes::{Kind, Page, Route, Status};
use page_server::Pages;
use std::alloc::{AllocError, Global};

/// Pages that are the same each time, of which some routes have none.
#[derive(Drop)]
pub struct Shelf {
    pub alloc: Global,
    /// How many pages were taken, and how many requests for other hosts were refused.
    pub taken: u64,
    pub refused: u64,
}

impl Shelf {
    /// No page was taken.
    pub fn new(alloc: Global) -> Shelf {
        Shelf {
            alloc,
            taken: 0,
            refused: 0,
        }
    }
}

impl Pages for Shelf {
    ghost pages = { λ old route page new. new.refused ≡ old.refused };

    ghost moves = { λ old new. new.taken ≡ old.taken };

    fn page(&mut self, route: &Route) -> Result<Page, AllocError> {
        let page = match route {
            Route::Health => text(self.alloc, Status::Found, Kind::Plain, "ok\n")?,
            Route::Change(_) => text(self.alloc, Status::NotFound, Kind::Html, "<p>no change\n")?,
            Route::Status => text(self.alloc, Status::Unavailable, Kind::Problem, "{}\n")?,
            Route::Metrics => long_text(self.alloc)?,
            Route::Style => text(self.alloc, Status::Found, Kind::Style, "abc")?,
            // Where memory is refused, there is no page.
            _ => return Err(AllocError),
        };
        self.taken = self.taken.wrapping_add(1);
        Ok(page)
    }

    fn refused_host(&mut self) {
        self.refused = self.refused.wrapping_add(1);
    }
}

/// A page with this text.
fn text(alloc: Global, status: Status, kind: Kind, text: &str) -> Result<Page, AllocError> {
    Ok(Page {
        status,
        kind,
        body: Vec::from_slice(alloc, text.as_bytes())?,
    })
}

/// How many bytes the longest page has: 16 MiB, more than a socket takes at once.
pub const LONG: usize = 16_777_216;

/// The longest page.
fn long_text(alloc: Global) -> Result<Page, AllocError> {
    Ok(Page {
        status: Status::Found,
        kind: Kind::Metrics,
        body: vec![in alloc; b'm'; LONG]?,
    })
}
