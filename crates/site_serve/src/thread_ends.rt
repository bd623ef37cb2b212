//! The ends of the threads of a site: windows to look through, and ends of the channels to the desk.

ghost use Rattle.std.specs.Prelude.{◌≡◌, All};

use super::ask::{Answer, Ask, DeskLink, Puller};
use super::jobs::{Job, Reply, Worker};
use super::opening::OwnWindow;
use crossbeam_channel::{Receiver, Sender, bounded};
use site_shared::{Naming, Window};
use std::alloc::{AllocError, Global};

/// How many asks of pulls may wait for the desk.
const WAITING_ASKS: usize = 8;

/// What each thread of a site works with: its window, and its ends of channels.
#[derive(Drop)]
pub struct ThreadEnds<J: Naming> {
    /// The window of the thread that prints the reports.
    pub reports: OwnWindow<J>,
    /// The window of the one that shows the site to browsers.
    pub pages: OwnWindow<J>,
    /// Those that pull from the peers.
    pub pullers: Vec<Puller<J>>,
    /// Those of the workers.
    pub workers: Vec<Worker<J>>,
    /// The event loop's ends of all channels.
    pub ends: LoopEnds<J>,
}

/// The event loop's ends of the channels.
#[derive(Drop)]
pub struct LoopEnds<J: Naming> {
    pub jobs: Sender<Job<J>, Global>,
    pub replies: Receiver<Reply, Global>,
    pub asks: Receiver<Ask, Global>,
    pub answers: Vec<Sender<Answer<J>, Global>>,
}

/// The ends of the threads: so many workers, and a puller at each window that is left. None where there are fewer
/// windows than workers and two.
pub fn thread_ends_at<J: Naming>(
    alloc: Global,
    windows: Vec<Window>,
    workers: usize,
    jobs: usize,
) -> Result<Option<ThreadEnds<J>>, AllocError>
    requires { All (λ window. window.book ≡ J.book) windows.items }
{
    let mut windows = windows;
    let Some(reports) = windows.pop() else {
        return Ok(None);
    };
    let Some(pages) = windows.pop() else {
        return Ok(None);
    };
    let Some(worker_set) = worker_set_of(alloc, &mut windows, workers, jobs)? else {
        return Ok(None);
    };
    let (pullers, puller_ends) = pullers_of(alloc, windows)?;
    let WorkerSet {
        workers,
        jobs,
        replies,
    } = worker_set;
    let PullerEnds { asks, answers } = puller_ends;
    Ok(Some(ThreadEnds {
        reports: OwnWindow::new(reports),
        pages: OwnWindow::new(pages),
        pullers,
        workers,
        ends: LoopEnds {
            jobs,
            replies,
            asks,
            answers,
        },
    }))
}

/// The workers, and the loop's ends of the channels to and from them.
#[derive(Drop)]
struct WorkerSet<J: Naming> {
    workers: Vec<Worker<J>>,
    jobs: Sender<Job<J>, Global>,
    replies: Receiver<Reply, Global>,
}

/// So many workers, with room for so many jobs. None where there are fewer windows.
fn worker_set_of<J: Naming>(
    alloc: Global,
    windows: &mut Vec<Window>,
    workers: usize,
    jobs: usize,
) -> Result<Option<WorkerSet<J>>, AllocError>
    requires { All (λ window. window.book ≡ J.book) windows.old.items }
    ensures { All (λ window. window.book ≡ J.book) windows.new.items }
{
    let (given, taken) = bounded(alloc, jobs)?;
    let (answered, replies) = bounded(alloc, jobs)?;
    match workers_at(alloc, windows, workers, &taken, &answered) {
        Ok(Some(workers)) => Ok(Some(WorkerSet {
            workers,
            jobs: given,
            replies,
        })),
        Ok(None) => Ok(None),
        Err(_) => Err(AllocError),
    }
}

/// So many workers, each at a window of its own. None where there are fewer windows.
fn workers_at<J: Naming>(
    alloc: Global,
    windows: &mut Vec<Window>,
    workers: usize,
    jobs: &Receiver<Job<J>, Global>,
    replies: &Sender<Reply, Global>,
) -> Result<Option<Vec<Worker<J>>>, AllocError>
    requires { All (λ window. window.book ≡ J.book) windows.old.items }
    ensures { All (λ window. window.book ≡ J.book) windows.new.items }
{
    let mut made = Vec::new(alloc);
    for _worker in 0..workers {
        let Some(window) = windows.pop() else {
            return Ok(None);
        };
        made.push(Worker {
            window: OwnWindow::new(window),
            jobs: jobs.clone()?,
            replies: replies.clone()?,
        })?;
    }
    Ok(Some(made))
}

/// The loop's ends of the channels from and to those that pull.
#[derive(Drop)]
struct PullerEnds<J: Naming> {
    asks: Receiver<Ask, Global>,
    answers: Vec<Sender<Answer<J>, Global>>,
}

/// A puller at each window, and the desk's ends of the channels from and to them.
fn pullers_of<J: Naming>(
    alloc: Global,
    windows: Vec<Window>,
) -> Result<(Vec<Puller<J>>, PullerEnds<J>), AllocError>
    requires { All (λ window. window.book ≡ J.book) windows.items }
{
    let (asks, asked) = bounded(alloc, WAITING_ASKS)?;
    match pullers_with(alloc, windows, &asks) {
        Ok((pullers, answers)) => Ok((
            pullers,
            PullerEnds {
                asks: asked,
                answers,
            },
        )),
        Err(_) => Err(AllocError),
    }
}

/// A puller at each window, and the desk's ends of the channels back to them.
fn pullers_with<J: Naming>(
    alloc: Global,
    windows: Vec<Window>,
    asks: &Sender<Ask, Global>,
) -> Result<(Vec<Puller<J>>, Vec<Sender<Answer<J>, Global>>), AllocError>
    requires { All (λ window. window.book ≡ J.book) windows.items }
{
    let mut pullers = Vec::new(alloc);
    let mut answers = Vec::new(alloc);
    for window in windows {
        let (answer, puller) = puller_at(alloc, OwnWindow::new(window), answers.len(), asks)?;
        answers.push(answer)?;
        pullers.push(puller)?;
    }
    Ok((pullers, answers))
}

/// The puller of this number at a window, and the desk's end of the channel back to it.
fn puller_at<J: Naming>(
    alloc: Global,
    window: OwnWindow<J>,
    puller: usize,
    asks: &Sender<Ask, Global>,
) -> Result<(Sender<Answer<J>, Global>, Puller<J>), AllocError> {
    let (answer, answers) = bounded(alloc, 1)?;
    let asks = asks.clone()?;
    let desk_link = DeskLink {
        puller,
        asks,
        answers,
    };
    Ok((answer, Puller { window, desk_link }))
}
