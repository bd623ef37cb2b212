//! Publishes the next replica to the windows.

ghost use Rattle.std.specs.Prelude.{◌≡◌, [], ◌∷◌, Some, drop};
ghost use Rattle.left_right.specs.Sides.{view};
ghost use Rattle.site_shared.specs.Showing.{Goes, seen_after};

use crate::showing::{Sees, Show};
use crate::shown::Shown;
use std::sync::Wait;

/// Shows what comes next. It waits for those that look at what was shown before the present.
pub fn shown_by<R: Wait>(rt: &R, show: Show, next: Shown) -> Show
    requires settled { drop show.behind show.log.items ≡ [] }
    requires goes_on { Goes show.desk.shown.value.sight.seen next.sight.seen }
    ensures settled { drop result.behind result.log.items ≡ [] }
    ensures shown { result.desk.shown.value.sight.seen ≡ next.sight.seen }
    ensures known { view result.desk.place ≡ Some next.sight.seen }
{
    published(rt, appended(rt, show, next))
}

/// Lays what comes next before the writer. It tries until there is room, for the list of publishes has it already.
fn appended<R: Wait>(rt: &R, mut show: Show, next: Shown) -> Show
    requires { drop show.behind show.log.items ≡ [] }
    ensures { (drop result.behind result.log.items ≡ next ∷ []) × (result.desk ≡ show.desk) }
{
    let mut waiting = next;
    for _ in rt.forever() {
        match show.append(waiting) {
            Ok(()) => return show,
            Err(back) => waiting = back,
        }
    }
    unreachable!()
}

/// Shows what lies before the writer. It tries until that is shown, for the list of publishes has it already.
fn published<R: Wait>(rt: &R, mut show: Show) -> Show
    requires { Goes show.desk.shown.value.sight.seen
        (seen_after show.desk.shown.value.sight.seen (drop show.behind show.log.items)) }
    ensures settled { drop result.behind result.log.items ≡ [] }
    ensures shown { result.desk.shown.value.sight.seen
        ≡ seen_after show.desk.shown.value.sight.seen (drop show.behind show.log.items) }
    ensures known { view result.desk.place
        ≡ Some (seen_after show.desk.shown.value.sight.seen (drop show.behind show.log.items)) }
{
    for _ in rt.forever() {
        let (after, outcome) = show.publish_as::<Sees, R>(rt);
        show = after;
        if outcome.is_ok() {
            return show;
        }
    }
    unreachable!()
}
