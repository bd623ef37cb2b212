//! The trait of those who make the pages.

ghost use Rattle.std.specs.Prelude.{IfOk, OnErr};
ghost use Rattle.page_routes.specs.declared.page.Page.{Page};
ghost use Rattle.page_routes.specs.declared.route.Route.{Route};

use page_routes::{Page, Route};
use std::alloc::AllocError;

/// Makes the pages of a site.
pub trait Pages {
    // From the first state, the page answers the route and leaves the second state.
    ghost pages: { Self → Route → Page → Self → Type 0 };

    // A request for which no page is made leads from the first state to the second.
    ghost moves: { Self → Self → Type 0 };

    /// The page of a route. The only error is refused memory.
    fn page(&mut self, route: &Route) -> Result<Page, AllocError>
        ensures ok { IfOk result (λ page. pages self.old route.now page self.new) }
        ensures err { OnErr result (moves self.old self.new) };

    /// Notes that a request for another host was refused.
    fn refused_host(&mut self)
        ensures { moves self.old self.new };
}
