//! Reads the text of a journal, block by block.

ghost use Rattle.std.specs.Prelude.{IsErrOf, IsTrue, ◌↔◌, ◌≡◌, ◌≤◌, ◌<◌, ◌+◌, ◌^◌, ◌++◌, ◌∷◌, [], ℕ, List, IfOk, IfErr};
ghost use Rattle.std.specs.Prelude.{IfSome, MatchResult, OnOk, length, vec_len};
ghost use Rattle.std.specs.Io.KnownBytes.{Consumes, IsAtEnd};
ghost use Rattle.byte_ends.specs.Lines.{as_line};
ghost use Rattle.line_reader.specs.Lines.{HasNoLf};
ghost use Rattle.site_journal.specs.Fault.{CountsJournalFault, IsJournalRefusal, line_fault_of};
ghost use Rattle.site_journal.specs.Reading.{HasRead, IsFoundText, IsJudged};
ghost use Rattle.site_journal.specs.Text.{header_line};

use crate::fault::{JournalFault, LineCause};
use crate::tape::Feed;
use line_batches::{Batches, Pipeline, first_room, next_room, past_first_lf, past_last_lf};
use line_reader::{LINE_LIMIT, first_lf};
use op_text::{OpTextFault, read_op};
use replica_core::{Gathering, Replica};
use std::alloc::Global;

/// The first line of a journal.
pub const HEADER: &[u8] = b"reviewgate 2\n";

/// The most bytes of a journal.
const TEXT_LIMIT: u64 = u64::MAX - 131_071;

/// What was found in the text of a journal.
#[derive(Drop)]
pub enum Found {
    /// So many bytes of its first line, and nothing else.
    Fresh(usize),
    /// The operations of its whole lines, which have so many bytes with the first line's; and so many bytes of a torn
    /// one.
    Lines(Replica, u64, usize),
}

/// Reads a journal to its end, its lines in batches, which join the effects, too.
pub fn read_text<B: Batches, F: Feed>(
    alloc: Global,
    batches: &B,
    feed: &mut F,
) -> Result<Found, JournalFault>
    ensures found { IfOk result (λ found. IfSome (F.left feed.old) (λ text. IsFoundText text found)) }
    ensures refused { IfErr result (λ fault. IfSome (F.left feed.old) (λ text. IsJournalRefusal text fault)) }
    ensures same { F.image feed.new ≡ F.image feed.old }
    ensures counted { MatchResult result
        (λ _. F.failed feed.new ≡ F.failed feed.old) (CountsJournalFault (F.failed feed.old) (F.failed feed.new)) }
{
    let head = read_head(alloc, feed)?;
    match judged(head.as_slice()) {
        Head::Whole => read_lines(alloc, batches, feed),
        Head::Front => Ok(Found::Fresh(head.as_slice().len())),
        Head::Other => Err(JournalFault::BadHeader),
    }
}

/// What is where the first line should be.
#[derive(Clone, Copy)]
pub enum Head {
    /// The first line.
    Whole,
    /// A prefix of it.
    Front,
    /// Something else.
    Other,
}

/// Judges what is where the first line should be, up to its length.
fn judged(head: &[u8]) -> Head
    requires { length head.now ≤ 13 }
    ensures { IsJudged head.now result }
{
    if is_same(head, HEADER) {
        return Head::Whole;
    }
    if is_same(head, HEADER.split_at(head.len()).0) {
        return Head::Front;
    }
    Head::Other
}

/// Whether these are the same bytes.
fn is_same(bytes: &[u8], others: &[u8]) -> bool
    ensures { IsTrue result ↔ (bytes.now ≡ others.now) }
{
    bytes == others
}

/// Reads what is where the first line should be, up to its length.
fn read_head<F: Feed>(alloc: Global, feed: &mut F) -> Result<Vec<u8>, JournalFault>
    ensures came { IfOk result (λ head. Consumes (F.left feed.old) (F.left feed.new) head.items) }
    ensures most { IfOk result (λ head. vec_len head ≤ 13) }
    ensures end { IfOk result (λ head. vec_len head < 13 → IsAtEnd (F.left feed.new)) }
    ensures fault { IfErr result (λ fault. (text : List ℕ) → IsJournalRefusal text fault) }
    ensures same { F.image feed.new ≡ F.image feed.old }
    ensures counted { MatchResult result
        (λ _. F.failed feed.new ≡ F.failed feed.old) (CountsJournalFault (F.failed feed.old) (F.failed feed.new)) }
{
    let mut head = Vec::new(alloc);
    let mut piece = [0u8; 13];
    while head.len() < HEADER.len() {
        let most = HEADER.len() - head.len();
        if read_piece(feed, &mut piece[..most], &mut head)? == 0 {
            return Ok(head);
        }
    }
    Ok(head)
}

/// Reads once, and adds what came. 0 is the end.
fn read_piece<F: Feed>(
    feed: &mut F,
    piece: &mut [u8],
    bytes: &mut Vec<u8>,
) -> Result<usize, JournalFault>
    ensures read { IfOk result (λ count. (part : List ℕ) × (length part ≡ count)
        × (bytes.new.items ≡ bytes.old.items ++ part)
        × Consumes (F.left feed.old) (F.left feed.new) part) }
    ensures most { IfOk result (λ count. count ≤ length piece.old) }
    ensures len { IfOk result (λ count. vec_len bytes.new ≡ vec_len bytes.old + count) }
    ensures end { IfOk result
        (λ count. count ≡ 0 → 0 < length piece.old → IsAtEnd (F.left feed.new)) }
    ensures fault { IfErr result (λ fault. (text : List ℕ) → IsJournalRefusal text fault) }
    ensures same { F.image feed.new ≡ F.image feed.old }
    ensures counted { MatchResult result
        (λ _. F.failed feed.new ≡ F.failed feed.old) (CountsJournalFault (F.failed feed.old) (F.failed feed.new)) }
{
    let Ok(count) = feed.read(piece) else {
        return Err(JournalFault::Failed);
    };
    if bytes.extend_from_slice(&piece[..count]).is_err() {
        return Err(JournalFault::NoMemory);
    }
    Ok(count)
}

/// Reads the lines after the first to their end.
fn read_lines<B: Batches, F: Feed>(
    alloc: Global,
    batches: &B,
    feed: &mut F,
) -> Result<Found, JournalFault>
    ensures found { IfOk result (λ found. IfSome (F.left feed.old) (λ text. IsFoundText (header_line ++ text) found)) }
    ensures refused { IfErr result (λ fault. IfSome (F.left feed.old) (λ text. IsJournalRefusal (header_line ++ text) fault)) }
    ensures same { F.image feed.new ≡ F.image feed.old }
    ensures counted { MatchResult result
        (λ _. F.failed feed.new ≡ F.failed feed.old) (CountsJournalFault (F.failed feed.old) (F.failed feed.new)) }
{
    let mut piece = first_room(alloc, batches)?;
    let mut reading = Reading::new(alloc);
    let mut seen = 13u64;
    while seen <= TEXT_LIMIT {
        match reading.read_block(batches, feed, piece.as_mut_slice())? {
            0 => return reading.found(batches, seen),
            count => {
                seen = seen.saturating_add(count as u64);
                piece = next_room(alloc, batches, piece, seen)?;
            }
        }
    }
    Err(JournalFault::TooLong)
}

/// How far the text of a journal was read: the operations of the lines so far, the beginning of the next line, and its
/// number from 1.
#[derive(Drop)]
struct Reading {
    pub alloc: Global,
    pub gathering: Pipeline,
    pub held: Vec<u8>,
    pub next: u64,
}

impl Reading {
    /// After the first line.
    pub fn new(alloc: Global) -> Reading
        ensures { HasRead header_line result.gathering result.held.items result.next }
    {
        Reading {
            alloc,
            gathering: Pipeline::onto(Gathering::new(alloc)),
            held: Vec::new(alloc),
            next: 2,
        }
    }

    /// What was found, where so many bytes came in all.
    fn found<B: Batches>(self, batches: &B, seen: u64) -> Result<Found, JournalFault>
        requires { length self.held.items ≤ seen }
        ensures found { IfOk result (λ found. (came : List ℕ) → HasRead came self.gathering self.held.items self.next
            → length came ≡ seen → IsFoundText came found) }
        ensures refused { IfErr result (λ fault. fault ≡ JournalFault.NoMemory) }
    {
        let Reading {
            gathering,
            held,
            ..
        } = self;
        let torn = held.as_slice().len();
        let replica = gathering.end()?.joined_by(batches)?;
        Ok(Found::Lines(replica, seen - torn as u64, torn))
    }

    /// Reads some bytes, and what they say. 0 is the end.
    fn read_block<B: Batches, F: Feed>(
        &mut self,
        batches: &B,
        feed: &mut F,
        piece: &mut [u8],
    ) -> Result<usize, JournalFault>
        ensures read { IfOk result (λ count. (part : List ℕ) × (length part ≡ count)
            × Consumes (F.left feed.old) (F.left feed.new) part
            × ((came : List ℕ) → HasRead came self.old.gathering self.old.held.items self.old.next
            → HasRead (came ++ part) self.new.gathering self.new.held.items self.new.next)) }
        ensures most { IfOk result (λ count. count ≤ length piece.old) }
        ensures end { IfOk result (λ count. count ≡ 0 → 0 < length piece.old → IsAtEnd (F.left feed.new)) }
        ensures refused { IfErr result
            (λ fault. (came : List ℕ) → HasRead came self.old.gathering self.old.held.items self.old.next
            → IfSome (F.left feed.old) (λ more. IsJournalRefusal (came ++ more) fault)) }
        ensures same { F.image feed.new ≡ F.image feed.old }
        ensures counted { MatchResult result
            (λ _. F.failed feed.new ≡ F.failed feed.old) (CountsJournalFault (F.failed feed.old) (F.failed feed.new)) }
    {
        let Ok(count) = feed.read(piece) else {
            return Err(JournalFault::Failed);
        };
        match self.take_block(batches, piece.split_at(count).0) {
            Ok(()) => Ok(count),
            Err(fault) => Err(fault),
        }
    }

    /// Reads what came: the rest of the line that is held, then whole lines, at once where they are operations', and
    /// the beginning of the next one.
    fn take_block<B: Batches>(&mut self, batches: &B, block: &[u8]) -> Result<(), JournalFault>
        ensures ok { OnOk result ((came : List ℕ) → HasRead came self.old.gathering self.old.held.items self.old.next
            → HasRead (came ++ block.now) self.new.gathering self.new.held.items self.new.next) }
        ensures err { IfErr result
            (λ fault. (came : List ℕ) → HasRead came self.old.gathering self.old.held.items self.old.next
            → (later : List ℕ) → IsJournalRefusal ((came ++ block.now) ++ later) fault) }
        ensures unfailing { IsErrOf result JournalFault.Failed → ⊥ }
    {
        let (first, rest) = block.split_at(past_first_lf(block));
        self.take_lines(first)?;
        let (whole, last) = rest.split_at(past_last_lf(rest));
        self.take_whole(batches, whole)?;
        self.take_lines(last)
    }

    /// Reads whole lines, at once where they are operations'.
    fn take_whole<B: Batches>(&mut self, batches: &B, lines: &[u8]) -> Result<(), JournalFault>
        ensures ok { OnOk result ((came : List ℕ) → HasRead came self.old.gathering self.old.held.items self.old.next
            → HasRead (came ++ lines.now) self.new.gathering self.new.held.items self.new.next) }
        ensures err { IfErr result
            (λ fault. (came : List ℕ) → HasRead came self.old.gathering self.old.held.items self.old.next
            → (later : List ℕ) → IsJournalRefusal ((came ++ lines.now) ++ later) fault) }
        ensures unfailing { IsErrOf result JournalFault.Failed → ⊥ }
    {
        if !self.has_room(lines) {
            return self.take_lines(lines);
        }
        match self.gathering.take_lines(batches, lines) {
            Ok(Some(count)) => {
                self.next += count as u64;
                Ok(())
            }
            Ok(None) => self.take_lines(lines),
            Err(_) => Err(JournalFault::NoMemory),
        }
    }

    /// Whether whole lines may be read at once: there are some, none is begun, and they can be counted.
    fn has_room(&self, lines: &[u8]) -> bool
        ensures { IsTrue result → (self.now.held.items ≡ []) × (self.now.next + length lines.now < 2 ^ 64) }
    {
        let room = u64::MAX - self.next;
        !lines.is_empty() && self.held.is_empty() && lines.len() as u64 <= room
    }

    /// Reads what came, one line after the other.
    fn take_lines(&mut self, block: &[u8]) -> Result<(), JournalFault>
        ensures ok { OnOk result ((came : List ℕ) → HasRead came self.old.gathering self.old.held.items self.old.next
            → HasRead (came ++ block.now) self.new.gathering self.new.held.items self.new.next) }
        ensures err { IfErr result
            (λ fault. (came : List ℕ) → HasRead came self.old.gathering self.old.held.items self.old.next
            → (later : List ℕ) → IsJournalRefusal ((came ++ block.now) ++ later) fault) }
        ensures unfailing { IsErrOf result JournalFault.Failed → ⊥ }
    {
        let mut rest = block;
        while let Some(at) = first_lf(rest) {
            self.take_piece(rest.split_at(at).0)?;
            rest = rest.split_at(at + 1).1;
        }
        self.hold(rest)
    }

    /// Reads the rest of a line, whose end comes after it.
    fn take_piece(&mut self, piece: &[u8]) -> Result<(), JournalFault>
        requires { HasNoLf piece.now }
        ensures ok { OnOk result ((came : List ℕ) → HasRead came self.old.gathering self.old.held.items self.old.next
            → HasRead (came ++ as_line piece.now) self.new.gathering self.new.held.items self.new.next) }
        ensures err { IfErr result
            (λ fault. (came : List ℕ) → HasRead came self.old.gathering self.old.held.items self.old.next
            → (later : List ℕ) → IsJournalRefusal ((came ++ as_line piece.now) ++ later) fault) }
        ensures unfailing { IsErrOf result JournalFault.Failed → ⊥ }
    {
        self.hold(piece)?;
        self.take_line()
    }

    /// Holds more of the line that is read.
    fn hold(&mut self, piece: &[u8]) -> Result<(), JournalFault>
        requires { HasNoLf piece.now }
        ensures ok { OnOk result ((came : List ℕ) → HasRead came self.old.gathering self.old.held.items self.old.next
            → HasRead (came ++ piece.now) self.new.gathering self.new.held.items self.new.next) }
        ensures err { IfErr result
            (λ fault. (came : List ℕ) → HasRead came self.old.gathering self.old.held.items self.old.next
            → (later : List ℕ) → IsJournalRefusal ((came ++ piece.now) ++ later) fault) }
        ensures unfailing { IsErrOf result JournalFault.Failed → ⊥ }
    {
        self.held.extend_from_slice(piece)?;
        if self.held.as_slice().len() > LINE_LIMIT {
            return Err(JournalFault::BadLine(self.next, LineCause::TooLong));
        }
        Ok(())
    }

    /// Takes the operation of the line that is held, whose end came.
    fn take_line(&mut self) -> Result<(), JournalFault>
        ensures ok { OnOk result ((came : List ℕ) → HasRead came self.old.gathering self.old.held.items self.old.next
            → HasRead (came ++ 10 ∷ []) self.new.gathering self.new.held.items self.new.next) }
        ensures err { IfErr result
            (λ fault. (came : List ℕ) → HasRead came self.old.gathering self.old.held.items self.old.next
            → (later : List ℕ) → IsJournalRefusal ((came ++ 10 ∷ []) ++ later) fault) }
        ensures unfailing { IsErrOf result JournalFault.Failed → ⊥ }
    {
        let op = match read_op(self.alloc, self.held.as_slice()) {
            Ok(op) => op,
            Err(cause) => return Err(line_fault(self.next, cause)),
        };
        let Some(next) = self.next.checked_add(1) else {
            return Err(JournalFault::TooLong);
        };
        self.gathering.take(op)?;
        self.held.clear();
        self.next = next;
        Ok(())
    }
}

/// How it is reported that the line of this number isn't read.
fn line_fault(number: u64, cause: OpTextFault) -> JournalFault
    ensures { result ≡ line_fault_of number cause }
{
    match cause {
        OpTextFault::NoMemory => JournalFault::NoMemory,
        cause => JournalFault::BadLine(number, LineCause::Text(cause)),
    }
}
