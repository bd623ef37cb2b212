//! Handles the lines of a session.

ghost use Rattle.std.specs.Prelude.{◌≡◌, ◌⊎◌, ◌<◌, ◌+◌, Bool, IfOk, IsSome, MatchBool, Ok, Result, drop, false, length, nat_eq, take, true};
ghost use Rattle.std.specs.Arc.{arc_value};
ghost use Rattle.std.specs.Duration.{as_nanos};
ghost use Rattle.std.specs.Option.{option_map};
ghost use Rattle.byte_ends.specs.Lines.{without_cr};
ghost use Rattle.gossip_line.specs.Texts.{no_memory_line};
ghost use Rattle.gossip_line.specs.declared.fault.LineFault.{LineFault};
ghost use Rattle.line_reader.specs.Lines.{HasFirstLf};
ghost use Rattle.site_serve.specs.Acknowledged.{AddsOwn, session_at};
ghost use Rattle.site_serve.specs.Channels.{ReadsOn};
ghost use Rattle.site_serve.specs.LookedAtKeys.{due_key};
ghost use Rattle.site_serve.specs.Outboxes.{Adds, MaySayLong};
ghost use Rattle.site_serve.specs.Rights.{HasHadLine, IsSameAccess, IsSameRight};
ghost use Rattle.review_ops.specs.Draft.{deed_of};
ghost use Rattle.site_serve.specs.Doing.{DoesBody, DoesLine, DoesLines, DoesOne};
ghost use Rattle.site_serve.specs.declared.jobs.Task.TheVariants as task;

use super::ask::{Ask, Asker};
use super::channel::Credential;
use super::group_commit::{BATCH, GroupCommit};
use super::jobs::{Job, Task};
use super::metrics::Metrics;
use super::opening::Opening;
use super::session::Session;
use crossbeam_channel::Sender;
use gossip_line::{Look, Saying, Step, is_take, step_of};
use line_reader::LINE_LIMIT;
use review_ops::Draft;
use sealed_line::KeyId;
use site_ledger::Keeps;
use site_shared::Naming;
use std::alloc::{AllocError, Global};
use std::sync::Wait;
use std::time::Duration;

/// How many lines of a session are handled in a turn at most.
const LINES_A_TURN: usize = 64;

/// Which looks may be answered, given how many bytes of answers are unread.
#[derive(Clone, Copy, PartialEq)]
pub(super) enum Room {
    /// All: `ready`, `state` and `front`.
    All,
    /// `front` alone.
    Fronts,
    /// None.
    None,
}

/// The session whose lines are handled, and what that needs.
#[derive(Drop)]
pub(super) struct LineContext<'a, J: Naming> {
    pub alloc: Global,
    /// The session, by its place and its number.
    pub place: usize,
    pub number: u64,
    pub moment: Duration,
    pub room: Room,
    pub metrics: &'a Metrics,
    pub jobs: &'a Sender<Job<J>, Global>,
}

/// Handles the lines of a session that have come, at most `LINES_A_TURN`. After a `take` only further `take`
/// lines are handled until the publish.
#[tactic(auto, using(crate::proofs::Waiting::steps_within))]
pub(super) fn do_lines<R: Wait, J: Opening, K: Keeps>(
    rt: &R,
    context: &LineContext<'_, J>,
    buffer: &mut [u8],
    session: &mut Session<J>,
    group: &mut GroupCommit<J, K>,
)
    // Nobody else waits for an answer to a line of the session.
    ensures own { AddsOwn (session_at context.now.place context.now.number) group.old.waiters group.new.waiters }

    // Nothing is answered before what was asked earlier is.
    ensures order { 0 < session.old.waiting → session.new.outbox ≡ session.old.outbox }

    // The lines are handled one after the other, each exactly once, and nothing else is done: no line is left out.
    ensures lines { DoesLines (session_at context.now.place context.now.number) (as_nanos context.now.moment) 64
        session.old session.new group.old group.new }
{
    for _ in 0..LINES_A_TURN {
        if !session.is_open() || !group.has_room() {
            return;
        }
        if !do_next(rt, context, buffer, session, group) {
            return;
        }
    }
}

/// Handles the next line of a session, or reads more if none is whole. Returns false if the session has to wait. No
/// line is handled while a check of the session's key is due.
#[tactic(auto, using(crate::proofs::Waiting::none_own, crate::proofs::Waiting::none_does, crate::proofs::Waiting::one_does, crate::proofs::Rights::reads_nothing))]
fn do_next<R: Wait, J: Opening, K: Keeps>(
    rt: &R,
    context: &LineContext<'_, J>,
    buffer: &mut [u8],
    session: &mut Session<J>,
    group: &mut GroupCommit<J, K>,
) -> bool
    requires room { length group.old.waiters < BATCH }
    ensures own { AddsOwn (session_at context.now.place context.now.number) group.old.waiters group.new.waiters }
    ensures order { 0 < session.old.waiting → session.new.outbox ≡ session.old.outbox }
    ensures key { IsSome (due_key session.old.key (as_nanos session.old.key_seen) (as_nanos context.now.moment))
        → group.new ≡ group.old }
    ensures waits { 0 < session.old.waiting → 0 < session.new.waiting }

    // The next line is handled, exactly once, or none is: no line is left out, and nothing is done that no line asks
    // for.
    ensures one { DoesOne (session_at context.now.place context.now.number) (as_nanos context.now.moment)
        session.old session.new
        (record { answers = session.old.outbox; waiters = group.old.waiters; account = group.old.entries.account })
        (record { answers = session.new.outbox; waiters = group.new.waiters; account = group.new.entries.account }) }
{
    let Some(size) = session.inbox.next_line() else {
        return read_on(rt, context, buffer, session);
    };
    match session.due_key(context.moment) {
        Some(key) => {
            look_at_key(rt, context, session, key);
            false
        }
        None => do_line(rt, context, session, group, size),
    }
}

/// Has a worker check the key of a session again.
fn look_at_key<R: Wait, J: Naming>(
    rt: &R,
    context: &LineContext<'_, J>,
    session: &mut Session<J>,
    key: KeyId,
)
    ensures kept { (session.new.outbox ≡ session.old.outbox) × (session.new.waiting ≡ session.old.waiting) }
    ensures inbox { session.new.inbox ≡ session.old.inbox }
    ensures access { IsSameAccess session.old session.new }
{
    session.await_worker();
    send_task(rt, context, Task::LookAtKey(key));
}

/// Reads more, as no whole line has come. Returns whether something came.
#[tactic(auto, using(crate::proofs::Rights::reads_nothing))]
fn read_on<R: Wait, J: Naming>(
    rt: &R,
    context: &LineContext<'_, J>,
    buffer: &mut [u8],
    session: &mut Session<J>,
) -> bool
    ensures order { 0 < session.old.waiting → session.new.outbox ≡ session.old.outbox }
    ensures waits { session.new.waiting ≡ session.old.waiting }
    ensures says { MaySayLong session.old.outbox session.new.outbox }
    ensures came { ReadsOn session.old.channel.mode session.old.inbox session.new.channel.mode session.new.inbox }
    ensures right { IsSameRight (record session.old { key = session.new.key }) session.new }
{
    if session.has_used_up_lines() {
        session.end_used_up();
        return false;
    }
    if session.inbox.is_too_long() {
        say_too_long(context, session);
        return false;
    }
    match session.credential() {
        Credential::None => session.read(buffer, context.moment),
        credential => {
            ask_for(rt, context, session, credential);
            false
        }
    }
}

/// Answers that a line is too long, once everything before it is answered.
fn say_too_long<J: Naming>(context: &LineContext<'_, J>, session: &mut Session<J>)
    ensures says { MaySayLong session.old.outbox session.new.outbox }
    ensures order { 0 < session.old.waiting → session.new.outbox ≡ session.old.outbox }
    ensures waits { session.new.waiting ≡ session.old.waiting }
    ensures inbox { session.new.inbox ≡ session.old.inbox }
    ensures access { IsSameAccess session.old session.new }
{
    if session.is_waiting() {
        return;
    }
    session.say_too_long(context.alloc);
}

/// Has a worker check the credential of a connection.
fn ask_for<R: Wait, J: Naming>(
    rt: &R,
    context: &LineContext<'_, J>,
    session: &mut Session<J>,
    credential: Credential,
)
    ensures kept { (session.new.outbox ≡ session.old.outbox) × (session.new.waiting ≡ session.old.waiting) }
    ensures inbox { session.new.inbox ≡ session.old.inbox }
    ensures access { IsSameAccess (record session.old { key = session.new.key }) session.new }
{
    session.await_check(credential);
    send_task(rt, context, Task::Admit(credential));
}

/// Gives a worker a task of the session that doesn't read the record.
fn send_task<R: Wait, J: Naming>(rt: &R, context: &LineContext<'_, J>, task: Task) {
    let job = Job {
        place: context.place,
        session: context.number,
        receipt: None,
        task,
    };
    let _sent = context.jobs.send(rt, job);
}

/// Handles a line of a session. Returns false if the line has to wait, or the session ends with it.
#[tactic(auto, using(crate::proofs::Waiting::none_own, crate::proofs::Waiting::says_does, crate::proofs::Waiting::takes_does, crate::proofs::Waiting::looks_does, crate::proofs::Rights::had_after))]
fn do_line<R: Wait, J: Opening, K: Keeps>(
    rt: &R,
    context: &LineContext<'_, J>,
    session: &mut Session<J>,
    group: &mut GroupCommit<J, K>,
    size: usize,
) -> bool
    requires line { HasFirstLf session.old.inbox size }
    requires room { length group.old.waiters < BATCH }

    // The next line is handled, or none is.
    ensures does { MatchBool result
        ((session.new.inbox ≡ drop (size + 1) session.old.inbox)
        × DoesLine session.old.may_take (nat_eq session.old.lines 0) (without_cr (take size session.old.inbox))
        (session_at context.now.place context.now.number)
        (record { answers = session.old.outbox; waiters = group.old.waiters; account = group.old.entries.account })
        (record { answers = session.new.outbox; waiters = group.new.waiters; account = group.new.entries.account }))
        ((session.new.inbox ≡ session.old.inbox) × (group.new.waiters ≡ group.old.waiters)
        × (group.new.entries.account ≡ group.old.entries.account)) }
    ensures had { MatchBool result (HasHadLine session.old session.new) (IsSameAccess session.old session.new) }
    ensures none { result ≡ false → MaySayLong session.old.outbox session.new.outbox }
    ensures own { AddsOwn (session_at context.now.place context.now.number) group.old.waiters group.new.waiters }
    ensures order { 0 < session.old.waiting → session.new.outbox ≡ session.old.outbox }
    ensures waits { 0 < session.old.waiting → 0 < session.new.waiting }
{
    if session.has_used_up_lines() {
        session.end_used_up();
        return false;
    }
    if size > LINE_LIMIT {
        say_too_long(context, session);
        return false;
    }
    let line = session.inbox.line(size);
    if session.is_waiting() && !is_take(line) {
        return false;
    }
    match step_of(context.alloc, session.is_first(), line) {
        Step::Takes(draft) => take_body(context, session, group, draft, size),
        _ if session.is_waiting() => false,
        Step::Says(saying) => {
            if saying == Saying::Noted && session.may_take() {
                context.metrics.note_heard(context.moment);
            }
            session.say(context.alloc, saying);
            session.skip_line(size);
            true
        }
        Step::Looks(look) if !has_room_for(context.room, &look) => {
            session.throttle();
            false
        }
        Step::Looks(look) => {
            begin_look(rt, context, session, look, size);
            true
        }
    }
}

/// Whether there is room for the answer to a look.
fn has_room_for(room: Room, look: &Look) -> bool {
    match look {
        Look::Missing(_) => room != Room::None,
        Look::Ready | Look::State => room == Room::All,
    }
}

/// Holds the body of a `take` line, if the session is allowed to send one, else answers that it isn't; and skips the
/// line. Returns false if the line has to wait.
#[tactic(auto, using(crate::proofs::Waiting::none_own, crate::proofs::Waiting::one_own, crate::proofs::Rights::had_after))]
fn take_body<J: Opening, K: Keeps>(
    context: &LineContext<'_, J>,
    session: &mut Session<J>,
    group: &mut GroupCommit<J, K>,
    draft: Draft,
    size: usize,
) -> bool
    requires line { size < length session.old.inbox }
    requires room { length group.old.waiters < BATCH }
    ensures does { MatchBool result
        ((session.new.inbox ≡ drop (size + 1) session.old.inbox)
        × DoesBody session.old.may_take (deed_of draft) (session_at context.now.place context.now.number)
        (record { answers = session.old.outbox; waiters = group.old.waiters; account = group.old.entries.account })
        (record { answers = session.new.outbox; waiters = group.new.waiters; account = group.new.entries.account }))
        ((session.new.inbox ≡ session.old.inbox) × (group.new.waiters ≡ group.old.waiters)
        × (group.new.entries.account ≡ group.old.entries.account)) }
    ensures had { MatchBool result (HasHadLine session.old session.new) (IsSameAccess session.old session.new) }
    ensures none { result ≡ false → MaySayLong session.old.outbox session.new.outbox }
    ensures own { AddsOwn (session_at context.now.place context.now.number) group.old.waiters group.new.waiters }
    ensures order { 0 < session.old.waiting → session.new.outbox ≡ session.old.outbox }
    ensures waits { 0 < session.old.waiting → 0 < session.new.waiting }
{
    if session.may_take() {
        let asker = Asker::Session {
            place: context.place,
            session: context.number,
        };
        group.hold(Ask::Intake { asker, draft });
        session.await_publish();
        session.skip_line(size);
        return true;
    }
    if session.is_waiting() {
        return false;
    }
    session.say(context.alloc, Saying::NotAllowed);
    session.skip_line(size);
    true
}

/// Skips the line, and has a worker do the look that it asks for.
#[tactic(auto, using(crate::proofs::Rights::had_before))]
fn begin_look<R: Wait, J: Naming>(
    rt: &R,
    context: &LineContext<'_, J>,
    session: &mut Session<J>,
    look: Look,
    size: usize,
)
    requires { size < length session.old.inbox }
    ensures says { (session.new.outbox ≡ session.old.outbox)
        ⊎ ((result : Result Bool LineFault) × Adds no_memory_line (Ok true) session.old.outbox session.new.outbox result) }
    ensures inbox { session.new.inbox ≡ drop (size + 1) session.old.inbox }
    ensures had { HasHadLine session.old session.new }
    ensures waits { session.new.waiting ≡ session.old.waiting }
{
    session.skip_line(size);
    let Ok(job) = look_job(context, session, look) else {
        session.say(context.alloc, Saying::NoMemory);
        return;
    };
    session.await_worker();
    let _sent = context.jobs.send(rt, job);
}

/// The job of a look, which sees at least what the session's newest receipt covers.
fn look_job<J: Naming>(
    context: &LineContext<'_, J>,
    session: &Session<J>,
    look: Look,
) -> Result<Job<J>, AllocError>
    ensures own { IfOk result (λ job. (job.place ≡ context.now.place) × (job.session ≡ context.now.number)) }
    ensures receipt { IfOk result (λ job. option_map arc_value job.receipt ≡ option_map arc_value session.now.receipt) }
    ensures look { IfOk result (λ job. job.task ≡ task.Look look) }
{
    let receipt = session.receipt_again()?;
    Ok(Job {
        place: context.place,
        session: context.number,
        receipt,
        task: Task::Look(look),
    })
}
