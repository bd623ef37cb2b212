//! Runs a site over its keeper, and saves its snapshot.

ghost use Rattle.std.specs.Prelude.{◌≡◌, IfErr, IfOk, IfSome, IsSome, List, None, OnErr, OnOk, Some, option_map};
ghost use Rattle.console.specs.Showing.{error_output};
ghost use Rattle.replica_core.specs.Sets.{IsSameSet};
ghost use Rattle.review_ops.specs.Operation.{Operation};
ghost use Rattle.site_journal.specs.Book.{IsHolding};
ghost use Rattle.site_journal.specs.Tape.{IsAtStart};
ghost use Rattle.serve_command.specs.Beginning.{HasSurvivors, IsRecordBegun, IsUnbegun, SaysTornOf};
ghost use Rattle.serve_command.specs.Leaving.{HasRun, HasRunUnder, HasSaved, LeavesKept};
ghost use Rattle.serve_command.specs.Printing.{prints_of};
ghost use Rattle.serve_command.specs.Starts.{IsStartOf};

use super::command::Ended;
use super::finished::{Finished, finish, unrun};
use super::input_thread::SiteControls;
use super::journal::begin;
use super::keys::KeyHooks;
use super::listening::{Listening, SiteListeners, remove_sockets};
use super::prepared::{Opened, Prepared, Site, SiteStreams, prepare};
use super::save::Saves;
use byte_ends::{Drain, Source};
use command_line::{Printing, ServeWords};
use console::Named;
use key_files::KeyReader;
use line_batches::SideBySide;
use mio::Waker;
use page_server::PageEndpoint;
use site_journal::{Journal, Tape};
use site_ledger::Keeps;
use site_serve::{PageSetup, Prints, Reloads, Setup, serve_keeping};
use std::alloc::Global;
use std::fs::File;
use std::io::Print;
use std::net::{Net, TcpListener, TcpStream};
use std::random::RandomSource;
use std::rt::Files;
use std::sync::{Arc, Wait};
use std::thread::Threads;
use std::time::Clock;

/// Runs a site with a journal on a tape that was just opened, and saves what it has left. It begins with what the
/// journal says and what was loaded, as `begin` does, under a start that is unused there; and whatever a crash leaves of
/// the journal that is given back says all that it began with and published. What that journal has is known if it was
/// known of the tape. Refused where the journal isn't opened; then nothing is run or saved.
pub fn run_with_journal<R, I, N, E, L, S, T>(
    rt: R,
    alloc: Global,
    site: Site<'_>,
    streams: SiteStreams<I, N, E>,
    keys: &L,
    snapshot_file: &mut S,
    tape: T,
) -> Result<Finished<Journal<T>>, Ended<'static>>
where
    R: Net<Listener = TcpListener, Stream = TcpStream> + RandomSource,
    R: Files<File = File> + Print + Threads + Wait + Clock,
    R: Copy + Send + Sync + 'static,
    I: Source + Send + Drop + 'static,
    N: Named + Send + Drop + 'static,
    E: Drain + Send + Drop + 'static,
    L: KeyReader + Sync,
    S: Saves,
    T: Tape + Drop,
    requires { IsAtStart (T.image tape) (T.left tape) }
    ensures ran { IfOk result
        (λ finished. HasRun (T.image tape) site.entry.replica finished.keeper finished.left) }
    ensures under { IfOk result (λ finished. HasRunUnder (T.image tape) site.entry.replica site.entry.serving.site
        site.entry.serving.start finished.start finished.left) }
    ensures saved { IfOk result (λ finished. HasSaved S.saves snapshot_file.old finished.left finished.ended snapshot_file.new) }
    ensures refused { OnErr result (snapshot_file.new ≡ snapshot_file.old) }
{
    let mut streams = streams;
    match begin_on_tape(rt, alloc, tape, site, &mut streams.errors) {
        Ok((journal, site)) => {
            let finished = run_with_keeper(rt, alloc, site, streams, keys, snapshot_file, journal);
            Ok(finished)
        }
        Err(ended) => Err(ended),
    }
}

/// A site that begins with what a journal says on a tape and with what was loaded, as `begin` does.
fn begin_on_tape<'a, R: Threads + Drop, T: Tape + Drop, E: Drain>(
    rt: R,
    alloc: Global,
    tape: T,
    site: Site<'a>,
    errors: &mut E,
) -> Result<(Journal<T>, Site<'a>), Ended<'static>>
    requires { IsAtStart (T.image tape) (T.left tape) }
    ensures kept { IfOk result
        (λ begun. (ops : List Operation) × IsHolding begun.0 ops × IsSameSet begun.1.replica ops) }
    ensures known { IfOk result (λ begun. IsSome (T.image tape) → IsSome begun.0.image) }
    ensures same { IfOk result (λ begun. begun.1.serving ≡ site.entry.serving) }
    ensures whole { IfOk result
        (λ begun. IfSome (T.image tape) (λ i. IsRecordBegun i.contents site.entry.replica begun.1.replica)) }
    ensures survivors { IfOk result
        (λ begun. IfSome (T.image tape) (λ i. HasSurvivors i.contents begun.1.replica)) }
    ensures torn { OnOk result (IfSome (T.image tape) (λ i. SaysTornOf
        (λ output. error_output (E.taken output) (E.failed output)) i.contents errors.old errors.new)) }
    ensures unbegun { IfErr result (IsUnbegun (T.image tape) errors.old errors.new) }
{
    let Site {
        serving,
        gate,
        replica,
        began,
    } = site;
    match begin(alloc, &SideBySide::new(rt), tape, replica, errors) {
        Ok((journal, replica)) => {
            let site = Site {
                serving,
                gate,
                replica,
                began,
            };
            Ok((journal, site))
        }
        Err(ended) => Err(ended),
    }
}

/// Runs a site over what keeps its operations, and saves what it has left. Whatever that had at first survives in what
/// is given back, with all that came to the record; and what is left is the first record with just these. It is run
/// under a start that it may have by its words and that record. A site whose start, listeners, input or output can't be
/// had isn't run; then nothing is saved.
pub fn run_with_keeper<R, I, N, E, L, S, K>(
    rt: R,
    alloc: Global,
    site: Site<'_>,
    streams: SiteStreams<I, N, E>,
    keys: &L,
    snapshot_file: &mut S,
    keeper: K,
) -> Finished<K>
where
    R: Net<Listener = TcpListener, Stream = TcpStream> + RandomSource,
    R: Files<File = File> + Print + Threads + Wait + Clock,
    R: Copy + Send + Sync + 'static,
    I: Source + Send + Drop + 'static,
    N: Named + Send + Drop + 'static,
    E: Drain + Send + Drop + 'static,
    L: KeyReader + Sync,
    S: Saves,
    K: Keeps,
    requires { (first : List Operation) × K.holds keeper first }
    ensures kept { LeavesKept K.survives (K.holds keeper) site.entry.replica result.keeper result.left }
    ensures known { K.is_known keeper → K.is_known result.keeper }
    ensures start { IfSome result.start
        (IsStartOf site.entry.serving.site site.entry.serving.start site.entry.replica) }
    ensures run { result.start ≡ None → result.left ≡ None }
    ensures saved { HasSaved S.saves snapshot_file.old result.left result.ended snapshot_file.new }
{
    match prepare(rt, alloc, site, streams) {
        Ok(prepared) => run_prepared(rt, alloc, prepared, keys, snapshot_file, keeper),
        Err(ended) => unrun(keeper, ended),
    }
}

/// Runs a prepared site, and saves its record. The Unix sockets that were created for it are removed, and it waits a
/// short time for its lines on standard error to be written before it ends.
fn run_prepared<R, O, L, S, K>(
    rt: R,
    alloc: Global,
    prepared: Prepared<'_, R, O>,
    keys: &L,
    snapshot_file: &mut S,
    keeper: K,
) -> Finished<K>
where
    R: Net<Listener = TcpListener, Stream = TcpStream>,
    R: Files<File = File> + Threads + Wait + Clock,
    R: Copy + Send + Sync + 'static,
    O: Drain + Send + Drop,
    L: KeyReader + Sync,
    S: Saves,
    K: Keeps,
    requires { (first : List Operation) × K.holds keeper first }
    ensures kept { LeavesKept K.survives (K.holds keeper) prepared.entry.opened.site.replica result.keeper result.left }
    ensures known { K.is_known keeper → K.is_known result.keeper }
    ensures start { result.start ≡ Some prepared.entry.opened.start }
    ensures saved { HasSaved S.saves snapshot_file.old result.left result.ended snapshot_file.new }
{
    let Prepared {
        opened,
        controls,
        output,
    } = prepared;
    let Opened {
        site,
        start,
        listening,
    } = opened;
    let SiteControls {
        stop,
        reloads,
        errors,
    } = controls;
    let Listening {
        site_listeners,
        sockets,
    } = listening;
    let SiteListeners { listeners, page } = site_listeners;
    let hooks = KeyHooks { reader: keys };
    let last = errors.share();
    let setup = setup_of(site, start, reloads, page);
    let ended_site = serve_keeping(
        &rt, alloc, listeners, setup, &stop, output, errors, &hooks, keeper,
    );
    let finished = finish(snapshot_file, ended_site);
    remove_sockets(&rt, sockets.as_slice());
    if let Ok(last) = last {
        last.finish();
    }
    finished
}

/// What a site is run with.
fn setup_of<'a>(
    site: Site<'a>,
    start: u32,
    reloads: Arc<Reloads, Global>,
    page: Option<(PageEndpoint, Waker)>,
) -> Setup<'a>
    ensures held { (result.gate ≡ site.entry.gate) × (result.reloads ≡ reloads)
        × (result.replica ≡ site.entry.replica) }
    ensures stamps { (result.site ≡ site.entry.serving.site) × (result.start ≡ start) }
    ensures peers { (result.peers ≡ site.entry.serving.peers) × (result.keys ≡ site.entry.serving.keys)
        × (result.pause_ms ≡ site.entry.serving.pause_ms) × (result.sites ≡ site.entry.serving.sites) }
    ensures sessions { (result.workers ≡ site.entry.serving.workers) × (result.sessions ≡ site.entry.serving.sessions)
        × (result.idle_ms ≡ site.entry.serving.idle_ms) × (result.connections ≡ site.entry.serving.connections) }
    ensures prints { result.prints ≡ prints_of site.entry.serving.prints }
    ensures page { result.page ≡ option_map
        (λ opened. record { endpoint = opened.0; waker = opened.1; hosts = site.entry.serving.http_hosts }) page }
{
    let Site {
        serving,
        gate,
        replica,
        began: _,
    } = site;
    let ServeWords {
        peers,
        keys,
        sites,
        site,
        workers,
        pause_ms,
        sessions,
        idle_ms,
        connections,
        prints,
        http_hosts,
        ..
    } = serving;
    Setup {
        gate,
        reloads,
        replica,
        site,
        start,
        peers,
        keys,
        sites,
        workers,
        pause_ms,
        sessions,
        idle_ms,
        connections,
        prints: prints_of(prints),
        page: page_setup(page, http_hosts),
    }
}

/// Where browsers connect to, with the names by which they may call this machine.
fn page_setup(page: Option<(PageEndpoint, Waker)>, hosts: Vec<String>) -> Option<PageSetup>
    ensures { result
        ≡ option_map (λ opened. record { endpoint = opened.0; waker = opened.1; hosts = hosts }) page }
{
    match page {
        Some((endpoint, waker)) => Some(PageSetup {
            endpoint,
            waker,
            hosts,
        }),
        None => None,
    }
}

/// What a site prints, as the words say.
fn prints_of(printing: Printing) -> Prints
    ensures { result ≡ prints_of printing }
{
    match printing {
        Printing::Report => Prints::Report,
        Printing::Changes => Prints::Changes,
        Printing::Nothing => Prints::Nothing,
    }
}
