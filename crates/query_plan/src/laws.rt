//! What holds of each plan.

ghost use Rattle.query_plan.specs.Keeping.{AgreesOn, NamesPortions, WaitsOn};

/// Whatever line comes, a change that waits to be queried goes on waiting, unless a whole answer listed it or came to a
/// query that named it, or it isn't known and a query failed that named it alone.
pub fn what_waits_is_kept()
    ensures { WaitsOn }
{}

/// A query of changes names at least one, only changes that wait and don't rest, at most as many as the turn may query,
/// and known ones alone if a known one is among them.
pub fn named_changes_wait()
    ensures { NamesPortions }
{}

/// In a new plan, and whatever lines come, what is kept of a change says that it waits exactly if it is on the list of
/// those that wait.
pub fn marks_say_what_waits()
    ensures { AgreesOn }
{}
