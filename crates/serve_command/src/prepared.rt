//! Prepares a site: chooses its start, opens its listeners, and starts the threads of its input and output.

ghost use Rattle.std.specs.Prelude.{◌≡◌, IfOk};
ghost use Rattle.serve_command.specs.Starts.{IsStartOf};

use super::command::Ended;
use super::input_thread::{SiteControls, start_input};
use super::late_clock::show_late_clock;
use super::listening::{Listening, listen, remove_sockets};
use super::output::PatientOutput;
use super::start::start_of;
use byte_ends::{Drain, Ends, Source};
use command_line::ServeWords;
use console::Named;
use gate_rules::Gate;
use replica_core::Replica;
use site_net::Stop;
use site_serve::ServeFault;
use std::alloc::Global;
use std::fs::File;
use std::io::Print;
use std::net::{Net, TcpListener, TcpStream};
use std::random::RandomSource;
use std::rt::Files;
use std::sync::{Arc, Wait};
use std::thread::Threads;
use std::time::{Clock, Duration};

/// What a site is run with, once its inputs are read.
#[derive(Drop)]
pub struct Site<'a> {
    pub serving: ServeWords<'a>,
    pub gate: Gate,
    pub replica: Replica,
    /// The time since 1970 at which its journal file was locked, which no other process can run on from then on; without
    /// a journal file, at which its inputs had been read. None where the clock can't be read.
    pub began: Option<Duration>,
}

/// A site's standard input, the files that it reads, and its standard error.
#[derive(Drop)]
pub struct SiteStreams<I, N, E> {
    pub input: I,
    pub files: N,
    pub errors: E,
}

/// A site with its start, and what it listens at.
#[derive(Drop)]
pub struct Opened<'a> {
    pub site: Site<'a>,
    pub start: u32,
    pub listening: Listening<'a>,
}

/// A site that listens, with the threads of its input and output.
#[derive(Drop)]
pub struct Prepared<'a, R, O> {
    pub opened: Opened<'a>,
    pub controls: SiteControls<R>,
    pub output: O,
}

/// Does all that may fail before a site runs: warns if its clock is late, chooses its start, listens, and starts the
/// threads of its input and output. If one of these fails the sockets that were created are removed. Refusals: `Site`
/// with `StartUsed`, its start was used; `NoPlace`, the system refused a thread; `NoMemory`; and those of `listen`.
pub fn prepare<'a, R, I, N, E>(
    rt: R,
    alloc: Global,
    site: Site<'a>,
    streams: SiteStreams<I, N, E>,
) -> Result<Prepared<'a, R, Ends<PatientOutput<R>>>, Ended<'static>>
where
    R: Net<Listener = TcpListener, Stream = TcpStream> + RandomSource,
    R: Files<File = File> + Print + Threads + Wait + Clock,
    R: Copy + Send + 'static,
    I: Source + Send + Drop + 'static,
    N: Named + Send + Drop + 'static,
    E: Drain + Send + Drop + 'static,
    ensures site { IfOk result (λ prepared. prepared.opened.site ≡ site.entry) }
    ensures start { IfOk result
        (λ prepared. IsStartOf site.entry.serving.site site.entry.serving.start site.entry.replica prepared.opened.start) }
{
    let mut streams = streams;
    show_late_clock(alloc, &site.replica, &mut streams.errors);
    match open(&rt, alloc, site) {
        Ok(opened) => with_threads(rt, alloc, opened, streams),
        Err(ended) => Err(ended),
    }
}

/// A site with its start that listens.
fn open<'a, R>(rt: &R, alloc: Global, site: Site<'a>) -> Result<Opened<'a>, Ended<'static>>
where
    R: Net<Listener = TcpListener, Stream = TcpStream> + RandomSource,
    R: Files + Print + Clock,
    ensures site { IfOk result (λ opened. opened.site ≡ site.entry) }
    ensures start { IfOk result
        (λ opened. IsStartOf site.entry.serving.site site.entry.serving.start site.entry.replica opened.start) }
{
    match start_and_listeners(rt, alloc, &site) {
        Ok((start, listening)) => Ok(Opened {
            site,
            start,
            listening,
        }),
        Err(ended) => Err(ended),
    }
}

/// The start of a site, and what it listens at.
fn start_and_listeners<'a, R>(
    rt: &R,
    alloc: Global,
    site: &Site<'a>,
) -> Result<(u32, Listening<'a>), Ended<'static>>
where
    R: Net<Listener = TcpListener, Stream = TcpStream> + RandomSource,
    R: Files + Print + Clock,
    ensures { IfOk result
        (λ begun. IsStartOf site.now.serving.site site.now.serving.start site.now.replica begun.0) }
{
    let serving = &site.serving;
    let found = start_of(rt, serving.start, site.began, &site.replica, serving.site);
    let Some(start) = found else {
        return Err(Ended::Site(ServeFault::StartUsed));
    };
    match listen(rt, alloc, serving) {
        Ok(listening) => Ok((start, listening)),
        Err(ended) => Err(ended),
    }
}

/// A site that listens, with the threads of its input and output. If they can't be started its sockets are removed.
fn with_threads<'a, R, I, N, E>(
    rt: R,
    alloc: Global,
    opened: Opened<'a>,
    streams: SiteStreams<I, N, E>,
) -> Result<Prepared<'a, R, Ends<PatientOutput<R>>>, Ended<'static>>
where
    R: Files + Print + Threads + Wait + Clock + Copy + Send + 'static,
    I: Source + Send + Drop + 'static,
    N: Named + Send + Drop + 'static,
    E: Drain + Send + Drop + 'static,
    ensures { IfOk result (λ prepared. prepared.opened ≡ opened.entry) }
{
    let serving = &opened.site.serving;
    match start_threads(rt, alloc, serving.gate, serving.until_input_ends, streams) {
        Ok((controls, output)) => Ok(Prepared {
            opened,
            controls,
            output,
        }),
        Err(fault) => {
            remove_sockets(&rt, opened.listening.sockets.as_slice());
            Err(Ended::Site(fault))
        }
    }
}

/// Starts the threads of a site's input and output.
fn start_threads<R, I, N, E>(
    rt: R,
    alloc: Global,
    gate: &str,
    until_input_ends: bool,
    streams: SiteStreams<I, N, E>,
) -> Result<(SiteControls<R>, Ends<PatientOutput<R>>), ServeFault>
where
    R: Print + Threads + Wait + Clock + Copy + Send + 'static,
    I: Source + Send + Drop + 'static,
    N: Named + Send + Drop + 'static,
    E: Drain + Send + Drop + 'static,
{
    let SiteStreams {
        input,
        files,
        errors,
    } = streams;
    match start_input(rt, alloc, gate, until_input_ends, input, files, errors) {
        Ok(controls) => with_output(rt, alloc, controls),
        Err(fault) => Err(fault),
    }
}

/// The controls, and an output that ends once the site is asked to stop.
fn with_output<R>(
    rt: R,
    alloc: Global,
    controls: SiteControls<R>,
) -> Result<(SiteControls<R>, Ends<PatientOutput<R>>), ServeFault>
where
    R: Print + Threads + Wait + Clock + Copy + Send + 'static,
{
    match output_of(rt, alloc, &controls.stop) {
        Ok(output) => Ok((controls, output)),
        Err(fault) => Err(fault),
    }
}

/// The output that its reports are printed to.
fn output_of<R: Print + Threads + Wait + Clock + Copy + Send + 'static>(
    rt: R,
    alloc: Global,
    stop: &Arc<Stop, Global>,
) -> Result<Ends<PatientOutput<R>>, ServeFault> {
    let Ok(theirs) = Arc::try_clone(stop) else {
        return Err(ServeFault::NoMemory);
    };
    match PatientOutput::new(rt, alloc, theirs) {
        Ok(Some(output)) => Ok(Ends::new(output)),
        Ok(None) => Err(ServeFault::NoPlace),
        Err(_) => Err(ServeFault::NoMemory),
    }
}
