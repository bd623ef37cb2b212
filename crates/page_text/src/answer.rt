//! Answers a route.

ghost use Rattle.std.specs.Prelude.{IfOk, MatchOption, length};
ghost use Rattle.json.specs.Print.{print};
ghost use Rattle.state_core.specs.State.{state_of};
ghost use Rattle.ready_core.specs.Verdicts.{AreVerdicts};
ghost use Rattle.page_text.specs.Answer.{IsPageAnswer, IsItemData, IsItemPage, IsListPage, IsOfItem, IsOfRecord};
ghost use Rattle.page_text.specs.Answer.{IsMetricsPage, IsPage, IsSamePage, IsText, event_text};
ghost use Rattle.page_text.specs.Items.{items_tokens};
ghost use Rattle.page_text.specs.Problem.{problem_tokens};
ghost use Rattle.page_text.specs.Rows.{chosen_rows};
ghost use Rattle.page_text.specs.Site.{site_tokens};

use super::change::change_page;
use super::facts::Facts;
use super::json_change::change_text;
use super::json_items::items_text;
use super::json_status::{events_text, status_text};
use super::list::list_page;
use super::metrics::metrics_text;
use super::style::{ICON, SCRIPT, STYLE};
use super::unknown::{problem_text, unknown_page};
use gate_rules::Gate;
use lattice_core::NoMemory;
use page_routes::{Choice, Kind, Page, Place, Route, Status};
use ready_core::Verdicts;
use replica_core::Replica;
use state_core::State;
use std::alloc::{AllocError, Global};
use why_text::item_asked;

/// What is answered to a route: of a change that isn't known, or of which that patch set isn't, a page that says so,
/// with the status `NotFound`, and else what is asked for, with the status `Found`. The verdicts are those of the
/// replica's state under the gate. Refusal: memory was refused. It costs O(n) for n items, and for a page of the list
/// O(k log n) more for k items in the chains of its rows, for metrics O(n k + s log s) under a gate with k approvals and
/// for s starts of sites, and where words are searched for O(n log n + m) for words and subjects of m bytes in all.
pub fn page_of(
    alloc: Global,
    route: &Route,
    gate: &Gate,
    replica: &Replica,
    verdicts: &Verdicts,
    facts: &Facts,
) -> Result<Page, AllocError>
    requires { AreVerdicts gate.now (state_of replica.now) verdicts.now }
    ensures { IfOk result (IsPageAnswer gate.now replica.now verdicts.now facts.now route.now) }
{
    match answer(alloc, route, gate, replica, verdicts, facts) {
        Ok(page) => Ok(page),
        Err(NoMemory) => Err(AllocError),
    }
}

/// The answer to a route.
fn answer(
    alloc: Global,
    route: &Route,
    gate: &Gate,
    replica: &Replica,
    verdicts: &Verdicts,
    facts: &Facts,
) -> Result<Page, NoMemory>
    requires { AreVerdicts gate.now (state_of replica.now) verdicts.now }
    ensures { IfOk result (IsPageAnswer gate.now replica.now verdicts.now facts.now route.now) }
{
    match route {
        Route::List(choice) => list_answer(alloc, choice, gate, replica, verdicts, facts),
        Route::Change(place) => change_answer(
            alloc,
            *place,
            gate,
            replica.state(),
            verdicts,
            facts,
        ),
        Route::Status => status_answer(alloc, replica, verdicts, facts),
        Route::Items(choice) => items_answer(alloc, choice, replica, verdicts),
        Route::ChangeData(place) => change_data(alloc, *place, gate, replica.state(), verdicts),
        Route::Events => events_answer(alloc, replica, verdicts),
        Route::Metrics => metrics_answer(alloc, gate, replica, verdicts, facts),
        Route::Health | Route::Style | Route::Script | Route::Icon => same_answer(alloc, route),
    }
}

/// The page of a route that is the same whatever the record is: that the site is well, the style, the script and the
/// icon. None for any other route. Refusal: memory was refused.
pub fn same_page(alloc: Global, route: &Route) -> Result<Option<Page>, AllocError>
    ensures { IfOk result (λ found. MatchOption found (IsOfRecord route.now) (IsSamePage route.now)) }
{
    let Some((kind, text)) = same_text(route) else {
        return Ok(None);
    };
    match fixed(alloc, kind, text) {
        Ok(page) => Ok(Some(page)),
        Err(NoMemory) => Err(AllocError),
    }
}

/// The answer to such a route.
fn same_answer(alloc: Global, route: &Route) -> Result<Page, NoMemory>
    requires { ¬ IsOfRecord route.now }
    ensures { IfOk result (IsSamePage route.now) }
{
    match same_text(route) {
        Some((kind, text)) => fixed(alloc, kind, text),
        None => unreachable!(),
    }
}

/// The kind and the text of such a route's page.
fn same_text(route: &Route) -> Option<(Kind, &'static str)>
    ensures { MatchOption result (IsOfRecord route.now)
        (λ found. (page : _) → IsText Status.Found found.0 found.1.now page → IsSamePage route.now page) }
{
    match route {
        Route::Health => Some((Kind::Plain, "ok\n")),
        Route::Style => Some((Kind::Style, STYLE)),
        Route::Script => Some((Kind::Script, SCRIPT)),
        Route::Icon => Some((Kind::Icon, ICON)),
        _ => None,
    }
}

/// The items that are asked for, as a page for people.
fn list_answer(
    alloc: Global,
    choice: &Choice,
    gate: &Gate,
    replica: &Replica,
    verdicts: &Verdicts,
    facts: &Facts,
) -> Result<Page, NoMemory>
    requires { AreVerdicts gate.now (state_of replica.now) verdicts.now }
    ensures { IfOk result (IsListPage gate.now (state_of replica.now) verdicts.now choice.now.page
        (chosen_rows (state_of replica.now) choice.now verdicts.now)) }
{
    let body = list_page(alloc, choice, gate, replica, verdicts, facts)?;
    Ok(found(Kind::Html, body))
}

/// The items that are asked for, as JSON.
fn items_answer(
    alloc: Global,
    choice: &Choice,
    replica: &Replica,
    verdicts: &Verdicts,
) -> Result<Page, NoMemory>
    ensures { IfOk result (IsText Status.Found Kind.Json (print (items_tokens (state_of replica.now) choice.now.page
        (chosen_rows (state_of replica.now) choice.now verdicts.now)))) }
{
    let body = items_text(alloc, choice, replica.state(), verdicts)?;
    Ok(found(Kind::Json, body))
}

/// The status of the site, as JSON.
fn status_answer(
    alloc: Global,
    replica: &Replica,
    verdicts: &Verdicts,
    facts: &Facts,
) -> Result<Page, NoMemory>
    ensures { IfOk result (IsText Status.Found Kind.Json
        (print (site_tokens (length replica.now) verdicts.now facts.now))) }
{
    let body = status_text(alloc, replica, verdicts, facts)?;
    Ok(found(Kind::Json, body))
}

/// How many items and operations there are, as an event.
fn events_answer(alloc: Global, replica: &Replica, verdicts: &Verdicts) -> Result<Page, NoMemory>
    ensures { IfOk result (IsText Status.Found Kind.Events
        (event_text (length verdicts.now.ready) (length verdicts.now.out) (length replica.now))) }
{
    let body = events_text(alloc, replica, verdicts)?;
    Ok(found(Kind::Events, body))
}

/// The metrics of the site.
fn metrics_answer(
    alloc: Global,
    gate: &Gate,
    replica: &Replica,
    verdicts: &Verdicts,
    facts: &Facts,
) -> Result<Page, NoMemory>
    ensures { IfOk result (IsMetricsPage gate.now replica.now verdicts.now facts.now) }
{
    let body = metrics_text(alloc, gate, replica, verdicts, facts)?;
    Ok(found(Kind::Metrics, body))
}

/// The page of a change, or one that says that it isn't known.
fn change_answer(
    alloc: Global,
    place: Place,
    gate: &Gate,
    state: &State,
    verdicts: &Verdicts,
    facts: &Facts,
) -> Result<Page, NoMemory>
    requires { AreVerdicts gate.now state.now verdicts.now }
    ensures { IfOk result (IsOfItem state.now place
        (IsItemPage state.now) (IsPage Status.NotFound Kind.Html)) }
{
    let Some(item) = item_asked(state, place.change, place.set) else {
        let body = unknown_page(alloc, place, facts.site)?;
        return Ok(missing(Kind::Html, body));
    };
    let body = change_page(alloc, item, gate, state, verdicts, facts)?;
    Ok(found(Kind::Html, body))
}

/// A change as JSON, or a problem that says that it isn't known.
fn change_data(
    alloc: Global,
    place: Place,
    gate: &Gate,
    state: &State,
    verdicts: &Verdicts,
) -> Result<Page, NoMemory>
    requires { AreVerdicts gate.now state.now verdicts.now }
    ensures { IfOk result (IsOfItem state.now place
        (IsItemData verdicts.now) (IsText Status.NotFound Kind.Problem (print problem_tokens))) }
{
    let Some(item) = item_asked(state, place.change, place.set) else {
        let body = problem_text(alloc)?;
        return Ok(missing(Kind::Problem, body));
    };
    let body = change_text(alloc, item, gate, state, verdicts)?;
    Ok(found(Kind::Json, body))
}

/// A text that never changes.
fn fixed(alloc: Global, kind: Kind, text: &str) -> Result<Page, NoMemory>
    ensures { IfOk result (IsText Status.Found kind text.now) }
{
    let body = String::from_str(alloc, text)?;
    Ok(found(kind, body.into_bytes()))
}

/// A page of what is there.
fn found(kind: Kind, body: Vec<u8>) -> Page
    ensures { IsText Status.Found kind body.items result }
{
    Page {
        status: Status::Found,
        kind,
        body,
    }
}

/// A page that says that something isn't there.
fn missing(kind: Kind, body: Vec<u8>) -> Page
    ensures { IsText Status.NotFound kind body.items result }
{
    Page {
        status: Status::NotFound,
        kind,
        body,
    }
}
