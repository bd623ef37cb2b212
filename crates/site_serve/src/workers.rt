//! The workers of a site, which answer the looks of its sessions.

ghost use Rattle.std.specs.Prelude.{◌≡◌, [], Ok, true};
ghost use Rattle.std.specs.Arc.{arc_value};
ghost use Rattle.std.specs.Option.{ForSome};
ghost use Rattle.gossip_line.specs.Steps.{call_of};
ghost use Rattle.gossip_line.specs.Texts.{reply_text};
ghost use Rattle.replica_core.specs.JournalLaws.{IsPartOf};
ghost use Rattle.site_port.specs.Ports.{reply_by, stamped};
ghost use Rattle.site_serve.specs.InForce.{followed_gate};
ghost use Rattle.site_serve.specs.Looks.{AnswersLook, IfLook, IsLooked, ShowsReply};
ghost use Rattle.site_serve.specs.Outboxes.{Adds};
ghost use Rattle.site_shared.specs.Accounts.{GoesOn};
ghost use Rattle.site_shared.specs.Publishes.{arrive};

use super::admission::Admission;
use super::errors::Errors;
use super::gate_follower::GateFollower;
use super::jobs::{Job, Reply, Task, Work, Worker};
use super::metrics::Metrics;
use super::outbox::refusing_memory;
use super::port::SitePort;
use super::session_fault::SessionFault;
use super::setup::SessionHooks;
use byte_ends::{Drain, Ends};
use gossip_line::{LineFault, Look, say_taken, show};
use mio::Waker;
use review_ops::Stamp;
use site_port::PortFault;
use site_shared::{BrandedReceipt, Naming};
use std::alloc::Global;
use std::sync::{Arc, Wait};

/// What a worker shares with the other threads of its site.
#[derive(Drop)]
pub(super) struct WorkerContext<'a, R, E: Drain, T: SessionHooks> {
    pub rt: &'a R,
    pub alloc: Global,
    pub admission: Admission<'a, T>,
    pub metrics: &'a Metrics,
    pub errors: &'a Errors<E>,
    pub hooks: &'a T,
}

/// Does jobs until the loop closes one of the channels, each under the gate that is in force when it begins.
pub(super) fn do_jobs<R: Wait, E: Drain, T: SessionHooks, J: Naming>(
    context: &WorkerContext<'_, R, E, T>,
    follower: GateFollower<'_>,
    worker: Worker<J>,
    waker: &Waker,
) {
    let Worker {
        window,
        jobs,
        replies,
    } = worker;
    let mut port = SitePort::new(context.rt, context.alloc, follower, window);
    for job in jobs.iter(context.rt) {
        port.follow();
        let reply = do_job(context, job, &mut port);
        if replies.send(context.rt, reply).is_err() {
            return;
        }
        let _woken = waker.wake();
    }
}

/// Does a job. A look sees at least what the job's receipt covers.
fn do_job<R: Wait, E: Drain, T: SessionHooks, J: Naming>(
    context: &WorkerContext<'_, R, E, T>,
    job: Job<J>,
    port: &mut SitePort<'_, '_, R, J>,
) -> Reply
    ensures own { (result.place ≡ job.place) × (result.session ≡ job.session) }
    ensures looked { IfLook job.task (λ look. AnswersLook (followed_gate port.old.follower) port.old.window.window look
        job.receipt (λ receipt. (arc_value receipt).published) port.new.window.window result.work) }
{
    let Job {
        place,
        session,
        receipt,
        task,
    } = job;
    let work = do_task(context, session, task, &receipt, port);
    Reply {
        place,
        session,
        work,
    }
}

/// Does a task of the session with this number. A look sees at least what the receipt covers.
fn do_task<R: Wait, E: Drain, T: SessionHooks, J: Naming>(
    context: &WorkerContext<'_, R, E, T>,
    session: u64,
    task: Task,
    receipt: &Option<Arc<BrandedReceipt<J>, Global>>,
    port: &mut SitePort<'_, '_, R, J>,
) -> Work
    ensures { IfLook task (λ look. AnswersLook (followed_gate port.old.follower) port.old.window.window look
        receipt.now (λ receipt. (arc_value receipt).published) port.new.window.window result) }
{
    let alloc = context.alloc;
    match task {
        Task::Enter => begin_session(context.hooks, session),
        Task::Admit(credential) => context
            .admission
            .answer(context.rt, alloc, credential, context.errors),
        Task::LookAtKey(id) => context
            .admission
            .role_now(context.rt, alloc, id, context.errors),
        Task::Look(look) => do_look(alloc, &look, receipt, port, context.metrics),
        Task::Leave(ended) => end_session(context, session, ended),
    }
}

/// Begins a session.
fn begin_session<T: SessionHooks>(hooks: &T, session: u64) -> Work {
    hooks.before(session);
    Work::Entered
}

/// Answers a look, which counts as in progress in the metrics meanwhile.
fn do_look<R: Wait, J: Naming>(
    alloc: Global,
    look: &Look,
    receipt: &Option<Arc<BrandedReceipt<J>, Global>>,
    port: &mut SitePort<'_, '_, R, J>,
    metrics: &Metrics,
) -> Work
    ensures { AnswersLook (followed_gate port.old.follower) port.old.window.window look.now
        receipt.now (λ receipt. (arc_value receipt).published) port.new.window.window result }
{
    metrics.begin_look();
    let work = answer_look(alloc, look, receipt, port);
    metrics.end_look();
    work
}

/// Ends a session with this result: a fault is counted, and reported on standard error.
fn end_session<R: Wait, E: Drain, T: SessionHooks>(
    context: &WorkerContext<'_, R, E, T>,
    session: u64,
    ended: Result<(), SessionFault>,
) -> Work {
    context.hooks.after(session);
    if let Err(fault) = ended {
        context.metrics.note_fault();
        context
            .errors
            .report_session_fault(context.rt, context.alloc, fault, session);
    }
    Work::Left
}

/// Answers a look that sees at least what the receipt covers.
fn answer_look<R: Wait, J: Naming>(
    alloc: Global,
    look: &Look,
    receipt: &Option<Arc<BrandedReceipt<J>, Global>>,
    port: &mut SitePort<'_, '_, R, J>,
) -> Work
    ensures { AnswersLook (followed_gate port.old.follower) port.old.window.window look.now
        receipt.now (λ receipt. (arc_value receipt).published) port.new.window.window result }
{
    if !has_learnt(receipt, port) {
        return refusal_answer(alloc, Err(PortFault::Closed));
    }
    look_answer(alloc, look, port)
}

/// From now on the port sees at least what the receipt covers. False for a receipt of another opening.
fn has_learnt<R: Wait, J: Naming>(
    receipt: &Option<Arc<BrandedReceipt<J>, Global>>,
    port: &mut SitePort<'_, '_, R, J>,
) -> bool
    ensures later { GoesOn port.old.window.window port.new.window.window }
    ensures gate { port.new.follower ≡ port.old.follower }
    ensures learnt { result ≡ true → ForSome receipt.now
        (λ receipt. IsPartOf (arrive (arc_value receipt).published) (arrive port.new.window.window.seen)) }
{
    match receipt {
        Some(receipt) => port.learn(receipt),
        None => true,
    }
}

/// What is answered to a look.
fn look_answer<R: Wait, J: Naming>(
    alloc: Global,
    look: &Look,
    port: &mut SitePort<'_, '_, R, J>,
) -> Work
    ensures { IsLooked (ShowsReply (followed_gate port.old.follower) port.old.window.window (call_of look.now) port.new.window.window) result }
{
    let mut drain = Ends::new(Vec::new(alloc));
    match show(alloc, look, &mut drain, port) {
        Err(LineFault::WriteFault) => refusal_answer(alloc, Err(PortFault::NoMemory)),
        answered => Work::Looked(drain.into_inner(), answered),
    }
}

/// The answer if the look failed.
fn refusal_answer(alloc: Global, refused: Result<Stamp, PortFault>) -> Work
    ensures { IsLooked (Adds (reply_text (reply_by stamped refused)) (Ok true) []) result }
{
    let mut drain = Ends::new(Vec::new(alloc));
    let answered = refusing_memory(say_taken(refused, &mut drain));
    Work::Looked(drain.into_inner(), answered)
}
