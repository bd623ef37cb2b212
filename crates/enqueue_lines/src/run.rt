//! Hands over the items of lines as they come.

ghost use Rattle.std.specs.Prelude.{◌≡◌, ◌⊎◌, ◌++◌, ◌∷◌, ℕ, List, [], IfErr, IfOk, Ok, None, false};
ghost use Rattle.std.specs.Io.KnownBytes.{Consumes, IsAtEnd};
ghost use Rattle.line_reader.specs.Lines.{HasNoLf};
ghost use Rattle.enqueue_lines.specs.Ending.{CountsStep, Gives, HandsAll, HandsGroup, ReadsGroup, SaysNext, SendsItems};
ghost use Rattle.enqueue_lines.specs.Ending.{SendsLines, SendsTexts, TakesNextLine, number_after};
ghost use Rattle.enqueue_lines.specs.Groups.{Fits, ReadySoFar, fresh, ready_first, ready_after, items_of_lines};
ghost use Rattle.enqueue_lines.specs.Lines.{NumbersFit, LineSays};
ghost use Rattle.enqueue_lines.specs.Printing.{pipe_shown};
ghost use Rattle.enqueue_lines.specs.Running.{IsSiteLine, KeepsSiteLine, ends_at, outputs_at};
ghost use Rattle.enqueue_lines.specs.declared.site_line.SiteLine.{SiteLine};

use super::fault::EnqueueFault;
use super::handing::Handing;
use super::items::ItemSet;
use super::pipeline::Pipeline;
use super::site_line::{SiteLine, read_line};
use byte_ends::{BytesFault, Drain, Source, write_all};
use line_reader::LineReader;
use state_core::Item;
use std::alloc::Global;

/// How many bytes a line may have: more than any that a site prints.
const LINE_LIMIT: usize = 4096;

/// A group whose lines come: what they say, and how many came.
#[derive(Drop)]
struct Coming {
    lines: Vec<SiteLine>,
    count: u64,
}

/// How the lines of a group go on.
#[derive(Clone, Copy, Debug, PartialEq, Eq)]
enum Step {
    /// There may be more of them.
    GoesOn,
    /// The end line came, which says how many items are ready.
    EndsWith(u64),
    /// The source ended.
    Stops,
}

/// Reads what a site prints, reports or groups of changes, and writes a line for each item that became ready, in gate
/// order, as `Pipeline::texts_of` says; its reports go to standard error. A group of lines counts once its end line has
/// come: then the items that are ready after it, and weren't before or in `earlier`, are written at once, before more
/// is read. Ends well at the end of the source, after an end line. Refusals: 1 `BadLine`, the line of this number is
/// none that a site prints; 2 `BadEnd`, the end line of this number doesn't fit the lines before it; 3 `NoEnd`, the
/// source ended after another line, or within one; 4 `ReadFault`, the source failed; 5 `NoMemory`; 6 `WriteFault`, an
/// output failed. All groups before were handed over. Nothing of the refused group was written, except after
/// `WriteFault`: then a part of its lines, or all of them and a part of its reports. It costs O(n log n) for a group
/// after which n items are ready, and O(n) for n bytes that are read or written.
pub fn hand_over<S: Source, O: Drain, E: Drain>(
    alloc: Global,
    pipeline: &Pipeline<'_>,
    earlier: ItemSet,
    source: &mut S,
    output: &mut O,
    errors: &mut E,
) -> Result<(), EnqueueFault>
    // All groups were handed over; or one wasn't: then it is stated why, and what of it was written.
    ensures { HandsAll (pipe_shown pipeline.now) earlier
        (ends_at (S.left source.old) (S.failed source.old)
        (outputs_at (O.taken output.old) (O.failed output.old) (E.taken errors.old) (E.failed errors.old)))
        (ends_at (S.left source.new) (S.failed source.new)
        (outputs_at (O.taken output.new) (O.failed output.new) (E.taken errors.new) (E.failed errors.new))) result }
{
    let Ok(mut reader) = LineReader::new(alloc, LINE_LIMIT) else {
        return Err(EnqueueFault::NoMemory);
    };
    let mut handing = Handing::new(alloc, earlier);
    let mut number = 0u64;
    for _group in 0..u64::MAX {
        match hand_group(
            alloc,
            pipeline,
            &mut number,
            &mut reader,
            &mut handing,
            source,
            output,
            errors,
        ) {
            Ok(true) => {}
            Ok(false) => return Ok(()),
            Err(fault) => return Err(fault),
        }
    }
    Err(EnqueueFault::ReadFault)
}

/// Hands over the next group, and says whether there was one. So many lines came before it.
fn hand_group<S: Source, O: Drain, E: Drain>(
    alloc: Global,
    pipeline: &Pipeline<'_>,
    number: &mut u64,
    reader: &mut LineReader,
    handing: &mut Handing,
    source: &mut S,
    output: &mut O,
    errors: &mut E,
) -> Result<bool, EnqueueFault>
    ensures hands { (came : List ℕ) × Consumes (S.left source.old) (S.left source.new) came
        × HandsGroup (pipe_shown pipeline.now) reader.old.limit (reader.old.held ++ came) reader.new.held
        number.old number.new handing.old handing.new
        (ends_at (S.left source.old) (S.failed source.old)
        (outputs_at (O.taken output.old) (O.failed output.old) (E.taken errors.old) (E.failed errors.old)))
        (ends_at (S.left source.new) (S.failed source.new)
        (outputs_at (O.taken output.new) (O.failed output.new) (E.taken errors.new) (E.failed errors.new))) result }
    ensures limit { reader.new.limit ≡ reader.old.limit }
{
    let mut coming = Coming {
        lines: Vec::new(alloc),
        count: 0,
    };
    match read_group(alloc, *number, reader, &mut coming, source) {
        Ok(Some(ready)) => {
            *number = number.saturating_add(coming.count);
            give(
                alloc, pipeline, *number, handing, &coming, ready, output, errors,
            )
        }
        Ok(None) => end_of(coming.count, reader.held()),
        Err(fault) => Err(fault),
    }
}

/// That there is no more group, where so many lines of one came, and this is held without a line end.
fn end_of(count: u64, held: &[u8]) -> Result<bool, EnqueueFault>
    ensures ok { IfOk result (λ more. (more ≡ false) × (count ≡ 0) × (held.now ≡ [])) }
    ensures refused { IfErr result (λ fault. (fault ≡ EnqueueFault.NoEnd) × ((count ≡ 0) → (held.now ≡ []) → ⊥)) }
{
    if count == 0 && held.is_empty() {
        Ok(false)
    } else {
        Err(EnqueueFault::NoEnd)
    }
}

/// Hands over a group, whose end line has this number, and says so.
fn give<O: Drain, E: Drain>(
    alloc: Global,
    pipeline: &Pipeline<'_>,
    number: u64,
    handing: &mut Handing,
    coming: &Coming,
    ready: u64,
    output: &mut O,
    errors: &mut E,
) -> Result<bool, EnqueueFault>
    ensures { Gives (pipe_shown pipeline.now)
        (items_of_lines coming.now.lines.items) ready number handing.old handing.new
        (outputs_at (O.taken output.old) (O.failed output.old) (E.taken errors.old) (E.failed errors.old))
        (outputs_at (O.taken output.new) (O.failed output.new) (E.taken errors.new) (E.failed errors.new)) result }
{
    match taken(alloc, handing, coming, number, ready) {
        Ok(items) => match write_items(alloc, pipeline, items.as_slice(), output, errors) {
            Ok(()) => Ok(true),
            Err(fault) => Err(fault),
        },
        Err(fault) => Err(fault),
    }
}

/// Reads the lines of a group, after so many lines. Answers how many items its end line says to be ready; or none where
/// the source ended before that.
fn read_group<S: Source>(
    alloc: Global,
    before: u64,
    reader: &mut LineReader,
    coming: &mut Coming,
    source: &mut S,
) -> Result<Option<u64>, EnqueueFault>
    requires { (coming.old.lines.items ≡ []) × (coming.old.count ≡ 0) }
    ensures comes { (came : List ℕ) × Consumes (S.left source.old) (S.left source.new) came
        × ReadsGroup reader.old.limit (reader.old.held ++ came) reader.new.held coming.new.lines.items before
        coming.new.count (S.failed source.old) (S.failed source.new) result }
    ensures end { result ≡ Ok None → IsAtEnd (S.left source.new) × HasNoLf reader.new.held }
    ensures limit { reader.new.limit ≡ reader.old.limit }
{
    for _line in 0..u64::MAX {
        let number = before.saturating_add(coming.count).saturating_add(1);
        match read_on(alloc, number, reader, coming, source) {
            Ok(Step::GoesOn) => {}
            Ok(Step::EndsWith(ready)) => return Ok(Some(ready)),
            Ok(Step::Stops) => return Ok(None),
            Err(fault) => return Err(fault),
        }
    }
    Err(EnqueueFault::ReadFault)
}

/// Reads the next line of a group, which has this number.
fn read_on<S: Source>(
    alloc: Global,
    number: u64,
    reader: &mut LineReader,
    coming: &mut Coming,
    source: &mut S,
) -> Result<Step, EnqueueFault>
    ensures moves { (came : List ℕ) × Consumes (S.left source.old) (S.left source.new) came
        × TakesNextLine reader.old.limit (reader.old.held ++ came) reader.new.held coming.old.lines.items
        coming.new.lines.items number (S.failed source.old) (S.failed source.new) result }
    ensures counts { IfOk result (CountsStep coming.old.count coming.new.count) }
    ensures end { result ≡ Ok Step.Stops → IsAtEnd (S.left source.new) × HasNoLf reader.new.held }
    ensures limit { reader.new.limit ≡ reader.old.limit }
{
    match next_site_line(alloc, number, reader, source) {
        Ok(Some(parsed)) => keep(coming, parsed),
        Ok(None) => Ok(Step::Stops),
        Err(fault) => Err(fault),
    }
}

/// Keeps what a line says, and says how the group goes on.
fn keep(coming: &mut Coming, parsed: SiteLine) -> Result<Step, EnqueueFault>
    ensures kept { IfOk result (KeepsSiteLine parsed coming.old.lines.items coming.new.lines.items) }
    ensures counted { coming.new.count ≡ number_after coming.old.count }
    ensures fault { IfErr result (λ fault. fault ≡ EnqueueFault.NoMemory) }
{
    coming.count = coming.count.saturating_add(1);
    match parsed {
        SiteLine::End(ready, _) => Ok(Step::EndsWith(ready)),
        SiteLine::Nothing => Ok(Step::GoesOn),
        SiteLine::Ready(_) | SiteLine::NowReady(_) | SiteLine::NotReady(_) => push_line(
            &mut coming.lines,
            parsed,
        ),
    }
}

/// Keeps what a line says.
fn push_line(lines: &mut Vec<SiteLine>, parsed: SiteLine) -> Result<Step, EnqueueFault>
    ensures kept { IfOk result (λ step. (step ≡ Step.GoesOn) × (lines.new.items ≡ lines.old.items ++ parsed ∷ [])) }
    ensures fault { IfErr result (λ fault. fault ≡ EnqueueFault.NoMemory) }
{
    match lines.push(parsed) {
        Ok(()) => Ok(Step::GoesOn),
        Err(_) => Err(EnqueueFault::NoMemory),
    }
}

/// What the next line says, which has this number; none at the end of the source.
fn next_site_line<S: Source>(
    alloc: Global,
    number: u64,
    reader: &mut LineReader,
    source: &mut S,
) -> Result<Option<SiteLine>, EnqueueFault>
    ensures moves { (came : List ℕ) × Consumes (S.left source.old) (S.left source.new) came
        × SaysNext reader.old.limit (reader.old.held ++ came) reader.new.held number (S.failed source.old)
        (S.failed source.new) result }
    ensures end { result ≡ Ok None → IsAtEnd (S.left source.new) × HasNoLf reader.new.held }
    ensures limit { reader.new.limit ≡ reader.old.limit }
{
    match reader.next_line(source) {
        Ok(true) => site_line_in(alloc, number, reader.line()),
        Ok(false) => Ok(None),
        Err(BytesFault::TooLong) => Err(EnqueueFault::BadLine(number)),
        Err(BytesFault::ReadFault) => Err(EnqueueFault::ReadFault),
        Err(BytesFault::NoMemory) => Err(EnqueueFault::NoMemory),
    }
}

/// What the line of this number says.
fn site_line_in(alloc: Global, number: u64, line: &[u8]) -> Result<Option<SiteLine>, EnqueueFault>
    ensures parsed { IfOk result (IsSiteLine line.now) }
    ensures refused { IfErr result (λ fault. ((fault ≡ EnqueueFault.BadLine number)
        × ((parsed : SiteLine) → NumbersFit parsed → ¬ LineSays line.now parsed)) ⊎ (fault ≡ EnqueueFault.NoMemory)) }
{
    match read_line(alloc, line) {
        Ok(Some(parsed)) => Ok(Some(parsed)),
        Ok(None) => Err(EnqueueFault::BadLine(number)),
        Err(_) => Err(EnqueueFault::NoMemory),
    }
}

/// The items that a group makes ready, whose end line has this number.
fn taken(
    alloc: Global,
    handing: &mut Handing,
    coming: &Coming,
    number: u64,
    ready: u64,
) -> Result<Vec<Item>, EnqueueFault>
    ensures taken { IfOk result (λ items. let group = items_of_lines coming.now.lines.items in
        let now = ready_after handing.old.ready group ready in
        Fits handing.old.ready group ready × (items.items ≡ fresh handing.old now) × (handing.new ≡ ready_first now)) }
    ensures refused { IfErr result (λ fault. ((fault ≡ EnqueueFault.BadEnd number)
        × ¬ Fits handing.old.ready (items_of_lines coming.now.lines.items) ready) ⊎ (fault ≡ EnqueueFault.NoMemory)) }
{
    match handing.take(alloc, coming.lines.as_slice(), ready) {
        Ok(Some(items)) => Ok(items),
        Ok(None) => Err(EnqueueFault::BadEnd(number)),
        Err(_) => Err(EnqueueFault::NoMemory),
    }
}

/// Writes what there is to write of items.
fn write_items<O: Drain, E: Drain>(
    alloc: Global,
    pipeline: &Pipeline<'_>,
    items: &[Item],
    output: &mut O,
    errors: &mut E,
) -> Result<(), EnqueueFault>
    ensures { SendsItems (pipe_shown pipeline.now) items.now
        (outputs_at (O.taken output.old) (O.failed output.old) (E.taken errors.old) (E.failed errors.old))
        (outputs_at (O.taken output.new) (O.failed output.new) (E.taken errors.new) (E.failed errors.new)) result }
{
    match pipeline.texts_of(alloc, items) {
        Ok(texts) => send_both(
            texts.lines.as_slice(),
            texts.reports.as_slice(),
            output,
            errors,
        ),
        Err(_) => Err(EnqueueFault::NoMemory),
    }
}

/// Writes a text to standard output, and then another one to standard error.
fn send_both<O: Drain, E: Drain>(
    lines: &[u8],
    reports: &[u8],
    output: &mut O,
    errors: &mut E,
) -> Result<(), EnqueueFault>
    ensures { SendsTexts lines.now reports.now
        (outputs_at (O.taken output.old) (O.failed output.old) (E.taken errors.old) (E.failed errors.old))
        (outputs_at (O.taken output.new) (O.failed output.new) (E.taken errors.new) (E.failed errors.new)) result }
{
    match send(output, lines) {
        Ok(()) => send(errors, reports),
        Err(fault) => Err(fault),
    }
}

/// Writes a text.
fn send<D: Drain>(drain: &mut D, text: &[u8]) -> Result<(), EnqueueFault>
    ensures { SendsLines text.now (D.taken drain.old) (D.taken drain.new) (D.failed drain.old) (D.failed drain.new)
        result }
{
    match write_all(drain, text) {
        Ok(()) => Ok(()),
        Err(_) => Err(EnqueueFault::WriteFault),
    }
}
