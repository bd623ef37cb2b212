//! Writes the bodies in the lines of a source as the lines of a session.

ghost use Rattle.event_feed.specs.Ends.{SendsText};
ghost use Rattle.event_feed.specs.Events.{RunsEvents};

use super::fault::FeedFault;
use super::feed::feed_lines;
use super::progress::Input;
use super::taker::Taker;
use super::texts::{refusal_lines, take_lines};
use byte_ends::{Drain, Source, write_all};
use gerrit_events::{ParsedLine, Projects};
use std::alloc::Global;

/// A taker that writes the bodies of each line as the lines of a session to an output, and the losses to standard
/// error.
#[derive(Drop)]
pub struct EventWriter<D: Drain, E: Drain> {
    pub alloc: Global,
    pub output: D,
    pub errors: E,
}

impl<D: Drain, E: Drain> Taker for EventWriter<D, E> {
    ghost use Rattle.std.specs.Prelude.{◌≡◌, Ok};
    ghost use Rattle.event_feed.specs.Events.{IsLineWritten};

    ghost rests = { λ old result new. (result ≡ Ok tt) × (new ≡ old) };

    ghost takes = { λ old number parsed result new. IsLineWritten number parsed.findings
        (record {
          output = record { taken = D.taken old.output; failed = D.failed old.output };
          errors = record { taken = E.taken old.errors; failed = E.failed old.errors };
        })
        (record {
          output = record { taken = D.taken new.output; failed = D.failed new.output };
          errors = record { taken = E.taken new.errors; failed = E.failed new.errors };
        })
        result };

    fn rest(&mut self) -> Result<(), FeedFault> {
        Ok(())
    }

    fn take(&mut self, number: u64, parsed: ParsedLine) -> Result<(), FeedFault> {
        let findings = parsed.findings.as_slice();
        let Ok(brought) = take_lines(self.alloc, findings) else {
            return Err(FeedFault::NoMemory);
        };
        let Ok(refused) = refusal_lines(self.alloc, number, findings) else {
            return Err(FeedFault::NoMemory);
        };
        match send(&mut self.output, brought.as_str()) {
            Ok(()) => send(&mut self.errors, refused.as_str()),
            Err(fault) => Err(fault),
        }
    }
}

/// Reads the lines of a source, as `feed_lines` does, and writes the lines of a session to the output: `hello 2` first,
/// then a line `take BODY` for each body. A loss of line n is reported on standard error: `reviewgate: events 1
/// BadEvent n KEY` or `reviewgate: events 2 Dropped n`. Refusals: those of `feed_lines`; 4 `WriteFault`, one of the
/// outputs failed; 5 `NoMemory`, memory was refused for a line, of which nothing was written. It costs O(n) for n bytes
/// that are read and written, and a look-up for each parent that a line names.
pub fn events_run<S: Source, D: Drain, E: Drain>(
    alloc: Global,
    input: Input,
    projects: &Projects,
    source: &mut S,
    writer: &mut EventWriter<D, E>,
) -> Result<(), FeedFault>
    ensures { RunsEvents
        (λ writer. record {
          output = record { taken = D.taken writer.output; failed = D.failed writer.output };
          errors = record { taken = E.taken writer.errors; failed = E.failed writer.errors };
        })
        input projects.now (S.left source.old) (S.failed source.old) writer.old (S.left source.new) (S.failed source.new) writer.new
        result }
{
    match send(&mut writer.output, "hello 2\n") {
        Ok(()) => feed_lines(alloc, input, projects, source, writer),
        Err(fault) => Err(fault),
    }
}

/// Writes a text.
pub fn send<D: Drain>(drain: &mut D, text: &str) -> Result<(), FeedFault>
    ensures { SendsText text.now
        (record { taken = D.taken drain.old; failed = D.failed drain.old })
        (record { taken = D.taken drain.new; failed = D.failed drain.new }) result }
{
    match write_all(drain, text.as_bytes()) {
        Ok(()) => Ok(()),
        Err(_) => Err(FeedFault::WriteFault),
    }
}
