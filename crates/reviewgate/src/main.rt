//! `reviewgate`: the review record of Gerrit changes, kept at several sites.
#![tactic(auto)]

mod descriptors;
mod enqueue;
mod events;
mod keys;
mod projects;
mod queries;

use byte_ends::{Drain, Ends, Source};
use command_line::{Asked, EnqueueWords, RecoverWords, ServeWords, read_words};
use commands::{report, report_usage, run_asked};
use console::{Named, Refusal, show_line};
use descriptors::fill_closed;
use enqueue::enqueue;
use events::feed;
use key_files::{KeyReader, SystemKeys};
use keys::report_keys;
use line_batches::SideBySide;
use queries::plan;
use record_pull::SystemFiles;
use recover_command::{recover_named, show_journal_fault};
use refusal_line::{Part, refusal_line};
use serve_command::{Ended, serve};
use site_journal::LeftOut;
use std::alloc::Global;
use std::env::Env;
use std::fs::File;
use std::io::{ErrorKind, Input, Print};
use std::net::{Net, TcpListener, TcpStream};
use std::process::ExitCode;
use std::random::RandomSource;
use std::rt::Files;
use std::sync::Wait;
use std::thread::Threads;
use std::time::Clock;
use std::{env, io};
use timed_lines::{SystemMoments, Timed};

/// The usage error of arguments that aren't UTF-8.
const NOT_TEXT: &str = "error: the words have to be UTF-8\n";

fn main(rt: HostRuntime) -> ExitCode {
    let _in_place = fill_closed(&rt);
    let alloc = rt.alloc();
    let words = match words_of(&rt) {
        Ok(words) => words,
        Err(error) => {
            let status = report_words(alloc, &error, &mut Ends::new(rt.stderr()));
            return ExitCode::from(status);
        }
    };
    let status = match read_words(alloc, words.as_slice()) {
        Asked::Serve(words) => {
            let log_time = words.log_time;
            serve_reported(
                rt,
                alloc,
                words,
                Ends::new(rt.reader()),
                SystemFiles::read_by(rt, SideBySide::new(rt)),
                Timed::new(SystemMoments::new(rt, log_time), Ends::new(rt.stderr())),
                &SystemKeys::new(rt),
                &mut Timed::new(SystemMoments::new(rt, log_time), Ends::new(rt.stderr())),
            )
        }
        Asked::Recover(words) => recover(rt, alloc, words, &mut Ends::new(rt.stderr())),
        Asked::Events(words) => feed(
            rt,
            alloc,
            words,
            Ends::new(rt.reader()),
            &mut Ends::new(io::writer(&rt)),
            &mut Ends::new(rt.stderr()),
        ),
        Asked::Queries(words) => plan(
            alloc,
            words,
            &mut Ends::new(rt.reader()),
            &mut Ends::new(io::writer(&rt)),
            &mut Ends::new(rt.stderr()),
        ),
        Asked::Enqueue(words) => hand_over(rt, alloc, words, &mut Ends::new(rt.stderr())),
        asked => run(rt, alloc, asked, &mut Ends::new(rt.stderr())),
    };
    ExitCode::from(status)
}

/// Runs every command line except `serve`, `recover`, `events`, `queries` and `enqueue`. Returns the exit status.
fn run<R, E>(rt: R, alloc: Global, asked: Asked<'_>, errors: &mut E) -> u8
where
    R: Input + Print + Files + Net<Stream = TcpStream> + Clock + Threads,
    R: AllocGlobal + Copy + Drop,
    E: Drain,
{
    run_asked(
        alloc,
        asked,
        &mut Ends::new(rt.reader()),
        &mut Ends::new(io::writer(&rt)),
        errors,
        &mut SystemFiles::read_by(rt, SideBySide::new(rt)),
    )
}

/// Runs `enqueue`. Returns the exit status.
fn hand_over<R, E>(rt: R, alloc: Global, words: EnqueueWords<'_>, errors: &mut E) -> u8
where
    R: Input + Print + Files + Net<Stream = TcpStream> + Clock + AllocGlobal + Copy + Drop,
    E: Drain,
{
    enqueue(
        alloc,
        words,
        &mut Ends::new(rt.reader()),
        &mut Ends::new(io::writer(&rt)),
        errors,
        &mut SystemFiles::new(rt),
    )
}

/// Runs `recover`. Returns the exit status.
fn recover<R, E>(rt: R, alloc: Global, words: RecoverWords<'_>, errors: &mut E) -> u8
where
    R: Input + Print + Files + Drop,
    E: Drain,
{
    let RecoverWords {
        journal,
        without: rows,
        until,
    } = words;
    let left_out = LeftOut { rows, until };
    recover_named(
        &rt,
        alloc,
        journal,
        Ends::new(rt.reader()),
        &left_out,
        &mut Ends::new(io::writer(&rt)),
        errors,
    )
}

/// Runs `serve`, and reports how it ended. Returns the exit status.
fn serve_reported<R, I, N, E, L, F>(
    rt: R,
    alloc: Global,
    words: ServeWords<'_>,
    input: I,
    files: N,
    errors: E,
    keys: &L,
    last: &mut F,
) -> u8
where
    R: Net<Listener = TcpListener, Stream = TcpStream> + RandomSource,
    R: Files<File = File> + Print + Threads + Wait + Clock + AllocGlobal,
    R: Copy + Send + Sync + 'static,
    I: Source + Send + Drop + 'static,
    N: Named + Send + Drop + 'static,
    E: Drain + Send + Drop + 'static,
    L: KeyReader + Sync,
    F: Drain,
{
    let ended = serve(rt, alloc, words, input, files, errors, keys);
    report_site(alloc, ended, last)
}

/// Reports how `serve` ended. Returns the exit status: 0 after an orderly end, else 1.
fn report_site<E: Drain>(alloc: Global, ended: Ended<'_>, errors: &mut E) -> u8 {
    match ended {
        Ended::Well => 0,
        Ended::Refused(refusal) => report(alloc, &Err(refusal), errors),
        Ended::Keys(fault, name) => report_keys(alloc, fault, name, errors),
        Ended::Journal(fault) => {
            show_journal_fault(alloc, &fault, errors);
            1
        }
        Ended::Site(fault) => report_fault(alloc, fault.number(), fault.name(), errors),
        Ended::Program(fault) => report_fault(alloc, fault.number(), fault.name(), errors),
        Ended::Unprinted => 1,
    }
}

/// Writes the line of a site's fault. Returns the exit status.
fn report_fault<E: Drain>(alloc: Global, number: u8, name: &str, errors: &mut E) -> u8 {
    show_line(&refusal_line(alloc, Part::Serve, number, name), errors);
    1
}

/// The arguments after the program's name.
fn words_of<R: Env + AllocGlobal>(rt: &R) -> io::Result<Vec<String>> {
    Ok(env::args(rt)?.skip(1).collect(rt.alloc())?)
}

/// Reports why the arguments can't be read: memory was refused, or one of them isn't UTF-8. Returns the exit status.
fn report_words<E: Drain>(alloc: Global, error: &io::Error, errors: &mut E) -> u8 {
    if error.kind() == ErrorKind::OutOfMemory {
        return report(alloc, &Err(Refusal::Memory), errors);
    }
    report_usage(NOT_TEXT, errors)
}
