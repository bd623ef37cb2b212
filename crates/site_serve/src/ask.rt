//! Requests to the desk of a site, and its answers.

ghost use Rattle.std.specs.Prelude.{◌≡◌, true};
ghost use Rattle.std.specs.Arc.{arc_value};
ghost use Rattle.site_serve.specs.Acknowledged.{has_stamped};
ghost use Rattle.site_shared.specs.Publishes.{arrive};

use super::opening::OwnWindow;
use crossbeam_channel::{Receiver, Sender};
use review_ops::{Draft, Op, Stamp};
use site_shared::{BrandedReceipt, DeskFault, Naming};
use std::alloc::Global;
use std::sync::Arc;

/// Who made a request.
#[derive(Clone, Copy)]
pub enum Asker {
    /// The session of this number, at its place.
    Session { place: usize, session: u64 },
    /// A thread that pulls.
    Puller(usize),
}

/// A request to the desk, and who made it.
#[derive(Drop)]
pub enum Ask {
    /// To stamp a body and take it in.
    Intake { asker: Asker, draft: Draft },
    /// To take these operations.
    TakeAll { asker: Asker, ops: Vec<Op> },
}

/// The answer after a publish: its receipt, which threads share, and the stamp of the body, if one was taken in. It
/// can't be made before the publish: the stamped operation is among those that the receipt covers.
#[derive(Drop)]
pub struct Done<J: Naming> {
    pub receipt: Arc<BrandedReceipt<J>, Global>,
    pub stamp: Option<Stamp>,
    pub ghost shown: { has_stamped (arrive (arc_value receipt).published) stamp ≡ true },
}

/// What was published, or why the request failed.
pub type Answer<J> = Result<Done<J>, DeskFault>;

/// The link of a puller to the desk: its number, and its ends of the channels to the desk and back.
#[derive(Drop)]
pub struct DeskLink<J: Naming> {
    pub puller: usize,
    pub asks: Sender<Ask, Global>,
    pub answers: Receiver<Answer<J>, Global>,
}

/// A thread that pulls: its window, and its link to the desk.
#[derive(Drop)]
pub struct Puller<J: Naming> {
    pub window: OwnWindow<J>,
    pub desk_link: DeskLink<J>,
}
