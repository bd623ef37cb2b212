//! Matches the target of a request to a route.

ghost use Rattle.std.specs.Prelude.{◌≡◌, ◌≢◌, ◌++◌, IfOk, ℕ, List, MatchOption, option_map};
ghost use Rattle.std.specs.Option.{option_copied};
ghost use Rattle.page_routes.specs.Numbers.{FindsNumber};
ghost use Rattle.page_routes.specs.Routes.{IsPlace, IsPlainRoute, IsRoute};

use super::choice::choice_of;
use super::number::{is_text, number_of};
use super::route::{Choice, Place, Route};
use std::alloc::{AllocError, Global};

/// What a request with this path and this query, without the `?`, asks for; nothing where there is no such page, which
/// is answered by 404.
///
/// | Path | Route |
/// |---|---|
/// | `/` | `List` |
/// | `/change/N`, `/change/N,P` | `Change` |
/// | `/api/v1/status` | `Status` |
/// | `/api/v1/items` | `Items` |
/// | `/api/v1/changes/N`, `/api/v1/changes/N,P` | `ChangeData` |
/// | `/api/v1/events` | `Events` |
/// | `/metrics` | `Metrics` |
/// | `/healthz` | `Health` |
/// | `/style.css` | `Style` |
/// | `/script.js` | `Script` |
/// | `/icon.svg` | `Icon` |
///
/// N and P are numbers up to 4,294,967,295 in decimal, with no zero in front and no sign. `List` and `Items` take from
/// the query, which is read as a form: `show`, which is `open`, `ready` or `all`; `reason`, which is `require`,
/// `reject`, `cycle`, `unknown` or `dependency`; `q`, the words, of at most 200 bytes once they are decoded; and
/// `page`, a number from 1. Of a key that is there more than once the first value counts, and other keys are ignored.
/// An empty value says the same as none: `open`, no reason, no words, page 1. For any other value there is no such
/// page. What isn't UTF-8 in a value becomes U+FFFD.
///
/// It costs O(n) for n bytes.
pub fn route_of(alloc: Global, path: &str, query: Option<&str>) -> Result<Option<Route>, AllocError>
    ensures { IfOk result (FindsNumber (IsRoute path.now (option_copied query.entry))) }
{
    if is_text(path, "/") {
        return Ok(listed(choice_of(alloc, query)?));
    }
    if is_text(path, "/api/v1/items") {
        return Ok(items(choice_of(alloc, query)?));
    }
    if let Some(place) = after(path, "/change/") {
        return Ok(place_of(place).map(Route::Change));
    }
    if let Some(place) = after(path, "/api/v1/changes/") {
        return Ok(place_of(place).map(Route::ChangeData));
    }
    Ok(plain_route(path))
}

/// The page of these items.
fn listed(choice: Option<Choice>) -> Option<Route>
    ensures { result ≡ option_map Route.List choice }
{
    choice.map(Route::List)
}

/// The data of these items.
fn items(choice: Option<Choice>) -> Option<Route>
    ensures { result ≡ option_map Route.Items choice }
{
    choice.map(Route::Items)
}

/// The rest of a path after a prefix.
fn after<'a>(path: &'a str, front: &str) -> Option<&'a str>
    ensures { MatchOption result ((rest : List ℕ) → path.now ≢ front.now ++ rest) (λ rest. path.now ≡ front.now ++ rest.now) }
{
    path.strip_prefix(front)
}

/// The route of a path without parameters.
fn plain_route(path: &str) -> Option<Route>
    ensures { FindsNumber (IsPlainRoute path.now) result }
{
    if is_text(path, "/api/v1/status") {
        return Some(Route::Status);
    }
    if is_text(path, "/api/v1/events") {
        return Some(Route::Events);
    }
    if is_text(path, "/metrics") {
        return Some(Route::Metrics);
    }
    if is_text(path, "/healthz") {
        return Some(Route::Health);
    }
    if is_text(path, "/style.css") {
        return Some(Route::Style);
    }
    if is_text(path, "/script.js") {
        return Some(Route::Script);
    }
    if is_text(path, "/icon.svg") {
        return Some(Route::Icon);
    }
    None
}

/// The change, or the patch set of it, that a text names.
fn place_of(text: &str) -> Option<Place>
    ensures { FindsNumber (IsPlace text.now) result }
{
    let Some((change, set)) = text.split_once(',') else {
        let change = number_of(text)?;
        return Some(Place { change, set: None });
    };
    let change = number_of(change)?;
    let set = number_of(set)?;
    Some(Place {
        change,
        set: Some(set),
    })
}
