//! The commands on a site's standard input: `stop`, `reload`, and its end.

ghost use Rattle.std.specs.Prelude.{◌≡◌, IfErr, IfNone, IfOk, IfSome};
ghost use Rattle.console.specs.Console.{is_input};
ghost use Rattle.console.specs.Inputs.{IsHad, gate_file, input};
ghost use Rattle.console.specs.Showing.{error_output};
ghost use Rattle.gate_rules.specs.Spelling.{SpellsGate};
ghost use Rattle.serve_command.specs.InputCommands.{IsRefusedAgain, ShowsRefused, parse_command};

use super::shared_errors::SharedErrors;
use byte_ends::{BytesFault, Drain, Ends, Source};
use console::{Console, Named, Refusal, Streams, read_gate, show_refusal};
use gate_rules::Gate;
use line_reader::LineReader;
use site_net::Stop;
use site_serve::Reloads;
use std::alloc::{AllocError, Global};
use std::sync::{Arc, Wait};
use std::thread;
use std::thread::Threads;
use std::time::Clock;

/// The maximum length of a line, in bytes; a longer one is skipped.
const COMMAND_LIMIT: usize = 1024;

/// A command on standard input.
#[derive(Clone, Copy, Debug, PartialEq, Eq)]
pub enum InputCommand {
    /// The line is no command.
    Nothing,
    /// `reload`: the gate file is to be read again.
    Reload,
    /// `stop`: the site is to stop.
    Stop,
    /// The input has ended.
    End,
}

/// What the thread needs to carry out commands: the stop flag, the gates that are put in force, the name of the gate
/// file, the files, and standard error for refusals.
#[derive(Drop)]
pub struct InputContext<R, N> {
    pub stop: Arc<Stop, Global>,
    pub reloads: Arc<Reloads, Global>,
    pub gate: String,
    pub files: N,
    pub errors: SharedErrors<R>,
}

/// The reader of the input's lines.
pub fn lines_of_input(alloc: Global) -> Result<LineReader, AllocError> {
    LineReader::new(alloc, COMMAND_LIMIT).map_err(|_| AllocError)
}

/// Starts a thread that handles the lines of the input: at a line `reload` it reads the gate file again, and at a line
/// `stop`, or at the end of the input, it asks the site to stop. The thread is detached. Returns whether it could be
/// started.
pub fn start_input_thread<R, I, N>(
    rt: R,
    alloc: Global,
    lines: LineReader,
    input: I,
    context: InputContext<R, N>,
) -> bool
where
    R: Threads + Wait + Clock + Copy + Send + 'static,
    I: Source + Send + Drop + 'static,
    N: Named + Send + Drop + 'static,
{
    thread::spawn(&rt, move || handle_input(rt, alloc, lines, input, context)).is_ok()
}

/// Handles the lines of the input up to its end or a line `stop`, and then asks the site to stop.
fn handle_input<R, I, N>(
    rt: R,
    alloc: Global,
    lines: LineReader,
    input: I,
    context: InputContext<R, N>,
)
where
    R: Wait + Clock + Copy,
    I: Source + Drop,
    N: Named + Drop,
{
    let (mut lines, mut input, mut context) = (lines, input, context);
    for _ in rt.forever() {
        match next_command(&mut lines, &mut input) {
            InputCommand::Nothing => {}
            InputCommand::Reload => reload(rt, alloc, &mut context),
            InputCommand::Stop | InputCommand::End => break,
        }
    }
    context.stop.ask(&rt);
}

/// Reads the next command. A line that is too long is skipped. A failed read is the end of the input.
fn next_command<S: Source>(lines: &mut LineReader, input: &mut S) -> InputCommand {
    match lines.next_line(input) {
        Ok(true) => parse_command(lines.line()),
        Ok(false) => InputCommand::End,
        Err(BytesFault::TooLong) => match lines.pass_over(input) {
            Ok(true) => InputCommand::Nothing,
            _ => InputCommand::End,
        },
        Err(_) => InputCommand::End,
    }
}

/// The command of a line.
fn parse_command(line: &[u8]) -> InputCommand
    ensures { result ≡ parse_command line.now }
{
    if line == b"stop".as_slice() {
        InputCommand::Stop
    } else if line == b"reload".as_slice() {
        InputCommand::Reload
    } else {
        InputCommand::Nothing
    }
}

/// Reads the gate file again, and puts its gate in force. If it is refused, that is reported, and the present gate
/// stays in force.
fn reload<R, N>(rt: R, alloc: Global, context: &mut InputContext<R, N>)
where
    R: Wait + Clock + Copy,
    N: Named,
{
    let gate = read_by(
        alloc,
        context.gate.as_str(),
        &mut Ends::new([].as_slice()),
        &mut Ends::new(Vec::new(alloc)),
        &mut context.files,
        &mut context.errors,
    );
    let Some(gate) = gate else {
        return;
    };
    if context.reloads.put(&rt, alloc, gate).is_err() {
        show_refusal(alloc, &Refusal::Memory, &mut context.errors);
    }
}

/// The gate of a name, read again from these ends.
fn read_by<I: Source, O: Drain, N: Named, E: Drain>(
    alloc: Global,
    name: &str,
    input: &mut I,
    output: &mut O,
    files: &mut N,
    errors: &mut E,
) -> Option<Gate> {
    let mut console = Streams {
        input,
        output,
        files,
        is_spent: true,
    };
    read_again(alloc, name, &mut console, errors)
}

/// The gate of a name, read again. A gate that came from standard input can't be read again. A refusal is written to
/// standard error as at the start; nothing else is.
fn read_again<C: Console, E: Drain>(
    alloc: Global,
    name: &str,
    console: &mut C,
    errors: &mut E,
) -> Option<Gate>
    ensures had { IfSome result (λ gate. IsHad (input gate_file name.now) (λ text. SpellsGate text gate)
        (C.state console.old) (C.state console.new)) }
    ensures silent { IfSome result (λ gate. errors.new ≡ errors.old) }
    ensures refused { IfNone result (ShowsRefused name.now (C.state console.old) (C.state console.new)
        (error_output (E.taken errors.old) (E.failed errors.old))
        (error_output (E.taken errors.new) (E.failed errors.new))) }
{
    match read_named(alloc, name, console) {
        Ok(gate) => Some(gate),
        Err(refusal) => {
            show_refusal(alloc, &refusal, errors);
            None
        }
    }
}

/// The gate of a name, read again. Refusals: those of `read_gate`, and `File` for the input.
fn read_named<'n, C: Console>(
    alloc: Global,
    name: &'n str,
    console: &mut C,
) -> Result<Gate, Refusal<'n>>
    ensures had { IfOk result (λ gate. IsHad (input gate_file name.now) (λ text. SpellsGate text gate)
        (C.state console.old) (C.state console.new)) }
    ensures refused { IfErr result (IsRefusedAgain name.now (C.state console.old) (C.state console.new)) }
{
    if is_input(name) {
        return Err(Refusal::File(name, BytesFault::ReadFault));
    }
    read_gate(alloc, name, console)
}

/// Whether a name is that of the input.
fn is_input(name: &str) -> bool
    ensures { result ≡ is_input name.now }
{
    name == "-"
}
