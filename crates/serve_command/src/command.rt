//! Runs the command `serve`.

ghost use Rattle.std.specs.Prelude.{◌≡◌, Err, IfErr, IfOk, option_map};
ghost use Rattle.serve_command.specs.Beginning.{AreInputs, AreRefused, IsLoaded, loads_of, site_inputs};

use super::fault::ProgramFault;
use super::finished::Finished;
use super::journal::tape_fault;
use super::keys::judge_keys;
use super::prepared::{Site, SiteStreams};
use super::running::{run_with_journal, run_with_keeper};
use super::save::SnapshotFile;
use super::start::time_of;
use super::tape::FileTape;
use byte_ends::{Drain, Ends, Source};
use command_line::ServeWords;
use console::{Console, Named, Refusal, Streams, read_gate, read_snapshot};
use gate_rules::Gate;
use key_file::KeyFault;
use key_files::KeyReader;
use replica_core::{Gathering, Replica};
use site_journal::JournalFault;
use site_ledger::NoJournal;
use site_serve::ServeFault;
use std::alloc::Global;
use std::fs::File;
use std::io;
use std::io::Print;
use std::net::{Net, TcpListener, TcpStream};
use std::random::RandomSource;
use std::rt::Files;
use std::sync::Wait;
use std::thread::Threads;
use std::time::Clock;

/// How `serve` ended.
#[derive(Drop)]
pub enum Ended<'n> {
    /// In an orderly way.
    Well,
    /// Its gate file, its snapshot or its output was refused, or memory.
    Refused(Refusal<'n>),
    /// Its keys were refused, in the file of this name.
    Keys(KeyFault, &'n str),
    /// Its journal file couldn't be opened.
    Journal(JournalFault),
    /// The site failed.
    Site(ServeFault),
    /// Its port or its files failed, or another process runs under its start.
    Program(ProgramFault),
    /// Its output failed while it ran, which was reported then.
    Unprinted,
}

/// Runs the site that the command line asks for. It reads and judges the gate file, then the snapshot and the keys, if
/// they are named, tries whether a snapshot could be saved, opens the journal, asks whether the start was used, listens
/// and prints `listening ADDRESS` for each address and, where it shows itself to browsers, `listening http ADDRESS`,
/// runs the site and saves what it has. What is wrong while it runs is written to `errors`. Where it is to end with its
/// input it ends in order at that end and at a line `stop`, and at a line `reload` the gate file is read again, by
/// `files` as before; else the input isn't read. Keys are read by `keys`.
pub fn serve<'n, R, I, N, E, L>(
    rt: R,
    alloc: Global,
    words: ServeWords<'n>,
    input: I,
    files: N,
    errors: E,
    keys: &L,
) -> Ended<'n>
where
    R: Net<Listener = TcpListener, Stream = TcpStream> + RandomSource,
    R: Files<File = File> + Print + Threads + Wait + Clock + AllocGlobal,
    R: Copy + Send + Sync + 'static,
    I: Source + Send + Drop + 'static,
    N: Named + Send + Drop + 'static,
    E: Drain + Send + Drop + 'static,
    L: KeyReader + Sync,
{
    let streams = SiteStreams {
        input,
        files,
        errors,
    };
    match run_site(rt, alloc, words, streams, keys) {
        Ok(()) => Ended::Well,
        Err(ended) => ended,
    }
}

/// Runs a site, from its inputs to its snapshot.
fn run_site<'n, R, I, N, E, L>(
    rt: R,
    alloc: Global,
    serving: ServeWords<'n>,
    streams: SiteStreams<I, N, E>,
    keys: &L,
) -> Result<(), Ended<'n>>
where
    R: Net<Listener = TcpListener, Stream = TcpStream> + RandomSource,
    R: Files<File = File> + Print + Threads + Wait + Clock + AllocGlobal,
    R: Copy + Send + Sync + 'static,
    I: Source + Send + Drop + 'static,
    N: Named + Send + Drop + 'static,
    E: Drain + Send + Drop + 'static,
    L: KeyReader + Sync,
{
    let mut streams = streams;
    match inputs_of(&rt, alloc, &serving, &mut streams, keys) {
        Ok((gate, replica)) => {
            let site = Site {
                serving,
                gate,
                replica,
                began: time_of(&rt),
            };
            run_named(rt, alloc, site, streams, keys)
        }
        Err(ended) => Err(ended),
    }
}

/// The gate, and the record to begin with, of a site whose keys are judged, too.
fn inputs_of<'n, R, I, N, E, L>(
    rt: &R,
    alloc: Global,
    serving: &ServeWords<'n>,
    streams: &mut SiteStreams<I, N, E>,
    keys: &L,
) -> Result<(Gate, Replica), Ended<'n>>
where
    R: Print,
    I: Source,
    N: Named,
    L: KeyReader,
{
    let inputs = read_from(
        alloc,
        serving.gate,
        serving.load,
        &mut streams.input,
        &mut Ends::new(io::writer(rt)),
        &mut streams.files,
    );
    match inputs {
        Ok(inputs) => judged(keys, serving, inputs),
        Err(refusal) => Err(Ended::Refused(refusal)),
    }
}

/// What was read, where the keys that the words name are there.
fn judged<'n, L: KeyReader>(
    keys: &L,
    serving: &ServeWords<'n>,
    inputs: (Gate, Replica),
) -> Result<(Gate, Replica), Ended<'n>> {
    match judge_keys(keys, serving) {
        Ok(()) => Ok(inputs),
        Err(ended) => Err(ended),
    }
}

/// Runs a site, and saves what it has left.
fn run_named<R, I, N, E, L>(
    rt: R,
    alloc: Global,
    site: Site<'_>,
    streams: SiteStreams<I, N, E>,
    keys: &L,
) -> Result<(), Ended<'static>>
where
    R: Net<Listener = TcpListener, Stream = TcpStream> + RandomSource,
    R: Files<File = File> + Print + Threads + Wait + Clock + AllocGlobal,
    R: Copy + Send + Sync + 'static,
    I: Source + Send + Drop + 'static,
    N: Named + Send + Drop + 'static,
    E: Drain + Send + Drop + 'static,
    L: KeyReader + Sync,
{
    match snapshot_file_of(rt, alloc, site.serving.save) {
        Ok(snapshot_file) => run_saved(rt, alloc, site, streams, keys, snapshot_file),
        Err(ended) => Err(ended),
    }
}

/// The file that what a site leaves is saved in, if one is named, where it could be saved there now.
fn snapshot_file_of<R: Files + Copy>(
    rt: R,
    alloc: Global,
    name: Option<&str>,
) -> Result<SnapshotFile<R>, Ended<'static>> {
    let Ok(snapshot_file) = SnapshotFile::new(rt, alloc, name) else {
        return Err(Ended::Site(ServeFault::NoMemory));
    };
    match snapshot_file.try_out() {
        Ok(()) => Ok(snapshot_file),
        Err(_) => Err(Ended::Program(ProgramFault::NoSave)),
    }
}

/// Runs a site with the journal that the words name, if they name one, and saves what it has left in this file.
fn run_saved<R, I, N, E, L>(
    rt: R,
    alloc: Global,
    site: Site<'_>,
    streams: SiteStreams<I, N, E>,
    keys: &L,
    snapshot_file: SnapshotFile<R>,
) -> Result<(), Ended<'static>>
where
    R: Net<Listener = TcpListener, Stream = TcpStream> + RandomSource,
    R: Files<File = File> + Print + Threads + Wait + Clock + AllocGlobal,
    R: Copy + Send + Sync + 'static,
    I: Source + Send + Drop + 'static,
    N: Named + Send + Drop + 'static,
    E: Drain + Send + Drop + 'static,
    L: KeyReader + Sync,
{
    let mut snapshot_file = snapshot_file;
    match site.serving.journal {
        Some(name) => run_on_file(rt, alloc, name, site, streams, keys, &mut snapshot_file),
        None => run_with_keeper(
            rt,
            alloc,
            site,
            streams,
            keys,
            &mut snapshot_file,
            NoJournal,
        )
        .ended,
    }
}

/// Runs a site with the journal of this name, and saves what it has left. It begins once the journal file is locked, and
/// the clock is read then: who had that file before has ended, and listened only after the second of its own start.
fn run_on_file<R, I, N, E, L>(
    rt: R,
    alloc: Global,
    name: &str,
    site: Site<'_>,
    streams: SiteStreams<I, N, E>,
    keys: &L,
    snapshot_file: &mut SnapshotFile<R>,
) -> Result<(), Ended<'static>>
where
    R: Net<Listener = TcpListener, Stream = TcpStream> + RandomSource,
    R: Files<File = File> + Print + Threads + Wait + Clock + AllocGlobal,
    R: Copy + Send + Sync + 'static,
    I: Source + Send + Drop + 'static,
    N: Named + Send + Drop + 'static,
    E: Drain + Send + Drop + 'static,
    L: KeyReader + Sync,
{
    match tape_of(&rt, alloc, name, site.serving.save) {
        Ok(tape) => {
            let mut site = site;
            site.began = time_of(&rt);
            ended_of(run_with_journal(rt, alloc, site, streams, keys, snapshot_file, tape))
        }
        Err(ended) => Err(ended),
    }
}

/// The journal file of this name, unless a snapshot would be saved in its place.
fn tape_of<R: Files<File = File>>(
    rt: &R,
    alloc: Global,
    name: &str,
    save: Option<&str>,
) -> Result<FileTape, Ended<'static>> {
    let tape = match FileTape::open(rt, name) {
        Ok(tape) => tape,
        Err(fault) => return Err(tape_fault(fault)),
    };
    match save {
        Some(path) => apart_from(rt, alloc, tape, path),
        None => Ok(tape),
    }
}

/// The journal file, unless it is the snapshot's file, or the one that the snapshot is first written to.
fn apart_from<R: Files>(
    rt: &R,
    alloc: Global,
    tape: FileTape,
    path: &str,
) -> Result<FileTape, Ended<'static>> {
    let Ok(beside) = format!(in alloc; "{path}.new") else {
        return Err(Ended::Site(ServeFault::NoMemory));
    };
    if tape.is_at(rt, path) || tape.is_at(rt, beside.as_str()) {
        return Err(Ended::Program(ProgramFault::NoSave));
    }
    Ok(tape)
}

/// How a site with a journal ended, if the journal could be opened, else why it couldn't.
fn ended_of<K: Drop>(ran: Result<Finished<K>, Ended<'static>>) -> Result<(), Ended<'static>>
    ensures ran { IfOk ran.entry (λ finished. result ≡ finished.ended) }
    ensures refused { IfErr ran.entry (λ ended. result ≡ Err ended) }
{
    match ran {
        Ok(finished) => finished.ended,
        Err(ended) => Err(ended),
    }
}

/// The gate, and the record to begin with, from these ends.
fn read_from<'n, I: Source, O: Drain, N: Named>(
    alloc: Global,
    gate: &'n str,
    load: Option<&'n str>,
    input: &mut I,
    output: &mut O,
    files: &mut N,
) -> Result<(Gate, Replica), Refusal<'n>> {
    let mut console = Streams {
        input,
        output,
        files,
        is_spent: false,
    };
    read_inputs(alloc, gate, load, &mut console)
}

/// The gate, and the record to begin with. Refusals: that of the first input that can't be read or is invalid;
/// `Memory`, memory was refused for the record after all were read.
fn read_inputs<'n, C: Console>(
    alloc: Global,
    gate: &'n str,
    load: Option<&'n str>,
    console: &mut C,
) -> Result<(Gate, Replica), Refusal<'n>>
    ensures had { IfOk result (λ inputs. AreInputs gate.now (option_map (λ name. name.now) load.entry) inputs.0 inputs.1
        (C.state console.old) (C.state console.new)) }
    ensures refused { IfErr result (AreRefused (site_inputs gate.now (option_map (λ name. name.now) load.entry))
        (C.state console.old) (C.state console.new)) }
{
    let rules = read_gate(alloc, gate, console)?;
    let replica = read_loaded(alloc, load, console)?;
    Ok((rules, replica))
}

/// The record of the snapshot of a name, or an empty one where none is named.
fn read_loaded<'n, C: Console>(
    alloc: Global,
    load: Option<&'n str>,
    console: &mut C,
) -> Result<Replica, Refusal<'n>>
    ensures had { IfOk result (λ replica. IsLoaded (option_map (λ name. name.now) load.entry) replica (C.state console.old)
        (C.state console.new)) }
    ensures refused { IfErr result (AreRefused (loads_of (option_map (λ name. name.now) load.entry))
        (C.state console.old) (C.state console.new)) }
{
    let Some(name) = load else {
        return Ok(Replica::new(alloc));
    };
    let gathering = read_snapshot(Gathering::new(alloc), name, console)?;
    let replica = record_of(console, gathering)?;
    Ok(replica)
}

/// The record that was gathered.
fn record_of<C: Console>(console: &C, gathering: Gathering) -> Result<Replica, Refusal<'static>>
    ensures record { IfOk result (λ replica. replica ≡ gathering) }
    ensures refused { IfErr result (λ refusal. refusal ≡ Refusal.Memory) }
{
    match console.replica_from(gathering) {
        Ok(replica) => Ok(replica),
        Err(_) => Err(Refusal::Memory),
    }
}
