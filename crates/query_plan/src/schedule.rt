//! When queries are due, and how many changes one may name.

ghost use Rattle.std.specs.Prelude.{◌≡◌};
ghost use Rattle.query_plan.specs.Schedule.{brought_forward, gathered, given_all, given_changes, lost_changes};
ghost use Rattle.query_plan.specs.Schedule.{new_schedule, paused_all, refused_changes, turn_ended, whole_all};
ghost use Rattle.query_plan.specs.Schedule.{whole_changes};

/// How many changes one query names at most.
pub const PORTION: usize = 50;

/// The seconds from the end of a turn to the next one.
const BETWEEN_TURNS: u64 = 4;

/// The seconds after the first whole answer to a query of all changes in which they are queried once more.
const AGAIN: u64 = 60;

/// The times of a plan, in seconds.
#[derive(Clone, Copy, Debug, PartialEq, Eq)]
pub struct Settings {
    /// From one query of all changes to the next.
    pub every: u64,
    /// In which changes that are asked for are gathered.
    pub gather: u64,
    /// Before a query that failed is asked again.
    pub pause: u64,
}

/// A query.
#[derive(Clone, Copy, Debug, PartialEq, Eq)]
pub enum Query {
    /// None.
    Nothing,
    /// Of all changes.
    All,
    /// Of changes by their numbers.
    Changes,
}

/// How a query failed.
#[derive(Clone, Copy, Debug, PartialEq, Eq)]
pub enum Failure {
    /// Gerrit answered by an error, or not whole.
    Refused,
    /// Gerrit took too long.
    Late,
    /// No answer came.
    Lost,
}

/// When queries are due, and the query that is under way.
#[derive(Clone, Copy, Debug, PartialEq, Eq)]
pub struct Schedule {
    pub settings: Settings,
    /// When the changes that wait are due.
    pub waiting_due: u64,
    /// When all changes are due; 0: at once.
    pub all_due: u64,
    /// The pause after the next query of all changes that fails.
    pub all_pause: u64,
    /// When all changes are queried once more after the first whole answer.
    pub again: Option<u64>,
    /// How many queries of all changes were given.
    pub round: u64,
    /// How many changes a turn may query.
    pub most: usize,
    /// Whether an answer was whole since a query took too long.
    pub is_well: bool,
    /// How many changes the turn may query yet; none between two turns.
    pub left: Option<usize>,
    /// The query that is under way.
    pub query: Query,
    /// When the query of all changes was given last.
    pub began: u64,
}

impl Schedule {
    /// Nothing was queried, and all changes are due.
    pub fn new(settings: Settings) -> Schedule
        ensures { result ≡ new_schedule settings }
    {
        Schedule {
            settings,
            waiting_due: 0,
            all_due: 0,
            all_pause: settings.pause,
            again: None,
            round: 0,
            most: PORTION,
            is_well: false,
            left: None,
            query: Query::Nothing,
            began: 0,
        }
    }

    /// A first change waits from now on.
    pub fn gathered(self, now: u64) -> Schedule
        ensures { result ≡ gathered now self }
    {
        Schedule {
            waiting_due: now.saturating_add(self.settings.gather),
            ..self
        }
    }

    /// The query of all changes is given, in a turn of its own.
    pub fn given_all(self, now: u64) -> Schedule
        ensures { result ≡ given_all now self }
    {
        Schedule {
            all_due: now.saturating_add(self.settings.every),
            round: self.round.saturating_add(1),
            left: Some(self.most),
            query: Query::All,
            began: now,
            ..self
        }
    }

    /// A query of so many changes is given, in a turn in which this may yet be queried.
    pub fn given_changes(self, left: usize, count: usize) -> Schedule
        ensures { result ≡ given_changes left count self }
    {
        Schedule {
            left: Some(left.saturating_sub(count)),
            query: Query::Changes,
            ..self
        }
    }

    /// The turn ends.
    pub fn turn_ended(self, now: u64) -> Schedule
        ensures { result ≡ turn_ended now self }
    {
        Schedule {
            waiting_due: now.saturating_add(BETWEEN_TURNS),
            most: self.most.saturating_mul(2).min(PORTION),
            left: None,
            ..self
        }
    }

    /// The answer to a query of changes was whole.
    pub fn whole_changes(self) -> Schedule
        ensures { result ≡ whole_changes self }
    {
        Schedule {
            is_well: true,
            query: Query::Nothing,
            ..self
        }
    }

    /// The answer to the query of all changes was whole. The next one comes soon after the first of these, and no sooner
    /// than the stream flowed for as long as this one held it; a query that was wanted meanwhile is due all the same.
    pub fn whole_all(self, now: u64) -> Schedule
        ensures { result ≡ whole_all now self }
    {
        let again = self.again.unwrap_or(now.saturating_add(AGAIN));
        let sooner = if now < again {
            self.all_due.min(again)
        } else {
            self.all_due
        };
        let held = now.saturating_sub(self.began);
        let later = sooner.max(now.saturating_add(held));
        Schedule {
            all_due: if self.all_due == 0 { 0 } else { later },
            all_pause: self.settings.pause,
            again: Some(again),
            is_well: true,
            query: Query::Nothing,
            ..self
        }
    }

    /// The query of all changes failed.
    pub fn paused_all(self, now: u64) -> Schedule
        ensures { result ≡ paused_all now self }
    {
        let due = now.saturating_add(self.all_pause);
        Schedule {
            all_due: if self.all_due == 0 { 0 } else { due },
            all_pause: self.all_pause.saturating_mul(2).min(self.settings.every),
            query: Query::Nothing,
            ..self
        }
    }

    /// No answer came to a query of changes.
    pub fn lost_changes(self, now: u64) -> Schedule
        ensures { result ≡ lost_changes now self }
    {
        Schedule {
            waiting_due: now.saturating_add(self.settings.pause),
            left: None,
            query: Query::Nothing,
            ..self
        }
    }

    /// A query of so many changes failed, because Gerrit took too long or not.
    pub fn refused_changes(self, now: u64, count: usize, is_late: bool) -> Schedule
        ensures { result ≡ refused_changes now count is_late self }
    {
        Schedule {
            most: count - count / 2,
            is_well: self.is_well && !is_late,
            ..self.lost_changes(now)
        }
    }

    /// All changes are due within a minute.
    pub fn brought_forward(self, now: u64) -> Schedule
        ensures { result ≡ brought_forward now self }
    {
        Schedule {
            all_due: self.all_due.min(now.saturating_add(AGAIN)),
            ..self
        }
    }
}
