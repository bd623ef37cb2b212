//! Runs the command `events`.

ghost use Rattle.std.specs.Prelude.{◌≡◌, ◌++◌, IfOk, codes, string_bytes};
ghost use Rattle.refusal_line.specs.Line.{line_of};
ghost use Rattle.refusal_line.specs.declared.part.Part.TheVariants.{Events};
ghost use Rattle.site_address.specs.Peer.{peer_text};

use super::keys::{fed_site, report_keys};
use super::projects::read_projects;
use byte_ends::{Drain, Source};
use command_line::{Answer, EventWords};
use commands::report;
use console::{Console, Named, Refusal, Streams, read_any_gate, show_line};
use event_feed::{EventWriter, FeedFault, Input, events_run};
use feed_client::{FeedOrder, Feeds, feed_to};
use footer_text::Bases;
use gerrit_events::Projects;
use record_pull::SystemFiles;
use refusal_line::{Part, refusal_line};
use site_address::PeerAddress;
use std::alloc::{AllocError, Global};
use std::net::{Net, TcpStream};
use std::random::RandomSource;
use std::rt::Files;
use std::sync::Wait;
use std::thread::Threads;
use std::time::Clock;

/// The settings of a feed, once its files are read.
#[derive(Drop)]
struct Choice<'n> {
    to: Option<PeerAddress<'n>>,
    /// The name of the file of keys.
    keys: Option<&'n str>,
    answer: Answer,
    projects: Projects,
    bases: Option<Bases>,
}

/// Runs `events`: feeds Gerrit's lines to the site at an address, or else writes the lines of a session to the output.
/// Returns the exit status: 0 at the end of the input, 1 if a file is refused or the feed ended early.
pub fn feed<R, I, O, E>(
    rt: R,
    alloc: Global,
    words: EventWords<'_>,
    input: I,
    output: &mut O,
    errors: &mut E,
) -> u8
where
    R: Net<Stream = TcpStream> + Files + Threads + Wait + Clock + RandomSource + AllocGlobal,
    R: Copy + Send + 'static,
    I: Source + Send + Drop + 'static,
    O: Drain,
    E: Drain,
{
    let mut input = input;
    let files = &mut SystemFiles::new(rt);
    match read_choice(alloc, words, &mut input, output, files) {
        Ok(choice) => match choice.to {
            Some(address) => events_to(rt, alloc, address, choice, input, output, errors),
            None => events(alloc, choice, &mut input, output, errors),
        },
        Err(refusal) => report(alloc, &Err(refusal), errors),
    }
}

/// Reads the files that the arguments name: the projects, and then the gate.
fn read_choice<'n, I: Source, O: Drain, N: Named>(
    alloc: Global,
    words: EventWords<'n>,
    input: &mut I,
    output: &mut O,
    files: &mut N,
) -> Result<Choice<'n>, Refusal<'n>> {
    let mut console = Streams {
        input,
        output,
        files,
        is_spent: false,
    };
    let EventWords {
        to,
        keys,
        answer,
        projects,
        projects_file,
        gate,
    } = words;
    let projects = read_projects(alloc, projects, projects_file, &mut console)?;
    let bases = read_bases(alloc, gate, &mut console)?;
    Ok(Choice {
        to,
        keys,
        answer,
        projects,
        bases,
    })
}

/// The bases of the gate file of a name, where one is named.
fn read_bases<'n, C: Console>(
    alloc: Global,
    name: Option<&'n str>,
    console: &mut C,
) -> Result<Option<Bases>, Refusal<'n>> {
    let Some(rules) = read_any_gate(alloc, name, console)? else {
        return Ok(None);
    };
    match rules.bases().copy() {
        Ok(bases) => Ok(Some(bases)),
        Err(_) => Err(Refusal::Memory),
    }
}

/// Reads Gerrit's lines from the input, and writes the lines of a session to the output, and losses to standard error.
fn events<I: Source, O: Drain, E: Drain>(
    alloc: Global,
    choice: Choice<'_>,
    input: &mut I,
    output: &mut O,
    errors: &mut E,
) -> u8 {
    let reads = match choice.answer {
        Answer::Stream => Input::Stream,
        Answer::Query | Answer::Complete => Input::Answer,
    };
    let mut writer = EventWriter {
        alloc,
        output: &mut *output,
        errors: &mut *errors,
    };
    match events_run(alloc, reads, &choice.projects, input, &mut writer) {
        Ok(()) => 0,
        Err(fault) => report_end(alloc, fault, errors),
    }
}

/// Reads Gerrit's lines from the input, feeds them to the site at an address, and writes the changes to query to the
/// output, and losses to standard error. If the address is on another machine, its key is read first.
fn events_to<R, I, O, E>(
    rt: R,
    alloc: Global,
    address: PeerAddress<'_>,
    choice: Choice<'_>,
    input: I,
    output: &mut O,
    errors: &mut E,
) -> u8
where
    R: Net<Stream = TcpStream>
        + Files
        + Threads
        + Wait
        + Clock
        + RandomSource
        + Copy
        + Send
        + 'static,
    I: Source + Send + Drop + 'static,
    O: Drain,
    E: Drain,
{
    let keys = choice.keys.unwrap_or("");
    let site = match fed_site(&rt, alloc, address, keys) {
        Ok(site) => site,
        Err(fault) => return report_keys(alloc, fault, keys, errors),
    };
    let feeds = match choice.answer {
        Answer::Stream => Feeds::Stream,
        Answer::Query => Feeds::Query,
        Answer::Complete => Feeds::Complete,
    };
    let order = FeedOrder {
        site,
        feeds,
        projects: choice.projects,
        bases: choice.bases,
    };
    match feed_to(rt, alloc, order, input, output, errors) {
        Ok(()) => 0,
        Err(FeedFault::NoSite) => report_no_site(alloc, address, errors),
        Err(fault) => report_end(alloc, fault, errors),
    }
}

/// Reports that no site answers at an address. Answers the exit status.
fn report_no_site<E: Drain>(alloc: Global, address: PeerAddress<'_>, errors: &mut E) -> u8 {
    show_line(&no_site_line(alloc, address), errors);
    1
}

/// The line of an address at which no site answers.
fn no_site_line(alloc: Global, address: PeerAddress<'_>) -> Result<String, AllocError>
    ensures { IfOk result
        (λ line. string_bytes line ≡ line_of Events 7 (codes "NoSite " ++ peer_text address.entry)) }
{
    let mut words = String::from_str(alloc, "NoSite ")?;
    address.write(&mut words)?;
    refusal_line(alloc, Part::Events, 7, words.as_str())
}

/// Reports how a feed ended early, where that wasn't reported with a line. Answers the exit status.
fn report_end<E: Drain>(alloc: Global, fault: FeedFault, errors: &mut E) -> u8 {
    if fault != FeedFault::Dropped {
        let line = refusal_line(alloc, Part::Events, fault.number(), fault.name());
        show_line(&line, errors);
    }
    1
}
