//! The rule of what is shown: it goes on from what each window and the desk have seen.

use crate::law::{Law, Member};
use crate::shown::Shown;
use atomic_table::{Join, Split};
use crossbeam_utils::rule::{Outcome, Protocol};
use left_right::reader::{Reader, Reading};
use left_right::writer::Writer;
use logbook::Seen;

/// What a window or the desk knows. No value of it is made.
pub type Knowledge = Option<Seen<Member, u64, Law>>;

/// Where a window looks through, between two looks.
pub type Glass = Reader<Shown, Knowledge, Shows>;

/// A look of a window.
pub type Look = Reading<Shown, Knowledge, Shows>;

/// Where the desk writes what is shown.
pub type Show = Writer<Shown, Shown, Knowledge, Shows>;

/// What windows and the desk owe each other.
pub struct Shows;

impl Protocol<Shown, Knowledge> for Shows {
    ghost use Rattle.std.specs.Prelude.{None};
    ghost use Rattle.site_shared.specs.Showing.{Keeps};

    ghost holds = { Keeps };

    ghost first = { None };
}

/// What entering and publishing show.
pub struct Sees;

impl Outcome<Shown, Knowledge> for Sees {
    ghost use Rattle.site_shared.specs.Showing.{Sees};

    ghost then = { Sees };
}

/// The desk shows all that it knows.
pub struct Tells;

impl Split<Knowledge> for Tells {
    ghost left = { λ known. known };

    ghost right = { λ known. known };
}

/// A new window takes in what it is shown.
pub struct TakesIn;

impl Join<Knowledge> for TakesIn {
    ghost use Rattle.std.specs.Prelude.{None};

    ghost both = { λ known other. other };

    ghost spent = { None };
}
