//! The jobs of a site's workers, and their replies.

use super::channel::Credential;
use super::opening::OwnWindow;
use super::session_fault::SessionFault;
use crossbeam_channel::{Receiver, Sender};
use gossip_line::{LineFault, Look};
use key_file::Role;
use sealed_line::KeyId;
use sealed_link::Admitted;
use site_shared::{BrandedReceipt, Naming};
use std::alloc::Global;
use std::sync::Arc;

/// A task that a worker does for a session.
#[derive(Drop)]
pub(super) enum Task {
    /// It begins.
    Enter,
    /// It asks to be admitted.
    Admit(Credential),
    /// Its key is checked again.
    LookAtKey(KeyId),
    /// It asks to look at what the site has.
    Look(Look),
    /// It has ended, with this result.
    Leave(Result<(), SessionFault>),
}

/// A task of the session of a number, at its place. It is shown no less than what its receipt has seen published.
#[derive(Drop)]
pub(super) struct Job<J: Naming> {
    pub place: usize,
    pub session: u64,
    pub receipt: Option<Arc<BrandedReceipt<J>, Global>>,
    pub task: Task,
}

/// The result of a task.
#[derive(Drop)]
pub(super) enum Work {
    /// The session has begun.
    Entered,
    /// It is admitted.
    Admitted(Admitted),
    /// It isn't admitted, and gets this answer.
    Rejected(Vec<u8>),
    /// The present role of its key; `None` if the site has no such key any more.
    KeyLookedAt(Option<Role>),
    /// The answer to a look, and whether the session goes on.
    Looked(Vec<u8>, Result<bool, LineFault>),
    /// The session has ended.
    Left,
}

/// A worker's result for the session with this number, at its place.
#[derive(Drop)]
pub(super) struct Reply {
    pub place: usize,
    pub session: u64,
    pub work: Work,
}

/// What a worker works with: a window to look through, and the ends of two channels.
#[derive(Drop)]
pub(super) struct Worker<J: Naming> {
    pub window: OwnWindow<J>,
    pub jobs: Receiver<Job<J>, Global>,
    pub replies: Sender<Reply, Global>,
}
