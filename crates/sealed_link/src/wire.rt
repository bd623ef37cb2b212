//! A sealed connection on the side that answers, as a value.

ghost use Rattle.std.specs.Prelude.{◌≡◌, ◌⊎◌, ◌<◌, ◌≤◌, ◌++◌, [], List, ℕ, Err, IfErr, IfOk, MatchOption, None, Ok};
ghost use Rattle.std.specs.Prelude.{OnErr, OnOk, Some, drop, length};
ghost use Rattle.byte_ends.specs.Lines.{as_line};
ghost use Rattle.line_reader.specs.Lines.{HasNoLf};
ghost use Rattle.sealed_line.specs.Sealing.{Opens, after_line};
ghost use Rattle.sealed_link.specs.Lines.{IsHeldUp, IsUnheld, IsUnopenable, KeepsRest, OpensCame, OpensLines};
ghost use Rattle.sealed_link.specs.Lines.{SealsFirst, SealsFront, SendsSealed};
ghost use Rattle.sealed_link.specs.Wires.{waiting_limit};
ghost use Rattle.sealed_link.specs.declared.fault.WireFault.{WireFault as AnyFault};

use super::fault::WireFault;
use line_reader::first_lf;
use sealed_ends::{BATCH, batch_end};
use sealed_line::{SEALED_LIMIT, Seal, SessionKeys};
use std::alloc::Global;
use std::marker::Model;

/// Up to how many bytes wait to be sent before no further line is sealed.
const WAITING: usize = 65_536;

/// A sealed connection on the side that answers, as a value, for a loop that polls sockets: bytes that came in become
/// the texts of lines, and texts become bytes to be sent. Contracts see what opens the next line, what came of it, and
/// why nothing is opened any more; and what seals the next line, and the bytes that wait.
#[derive(Drop)]
pub struct Wire {
    alloc: Global,
    inward: Seal,
    outward: Seal,
    held: Vec<u8>,
    fault: Option<WireFault>,
    sealed: Vec<u8>,
    sent: usize,
}

impl Model for Wire {
    ghost use Rattle.std.specs.Prelude.{drop, vec_len};
    ghost use Rattle.sealed_link.specs.Wires.{IsWired, Wiring};

    ghost Value = { Wiring };

    ghost view = { λ w. record { inward = w.inward; held = w.held.items; fault = w.fault; outward = w.outward; waiting = drop w.sent w.sealed.items } };

    ghost invariant = { λ w. IsWired w.sent (vec_len w.sealed) w.held.items };
}

impl Wire {
    /// The wire of a connection with these keys, on which nothing came or was sent after both first lines.
    pub fn new(alloc: Global, keys: SessionKeys) -> Wire
        ensures { result
            ≡ record { inward = keys.inward; held = []; fault = None; outward = keys.outward; waiting = [] } }
    {
        let SessionKeys {
            proof: _,
            inward,
            outward,
        } = keys;
        Wire {
            alloc,
            inward,
            outward,
            held: Vec::new(alloc),
            fault: None,
            sealed: Vec::new(alloc),
            sent: 0,
        }
    }

    /// Opens each line that is whole now, what is held and what came, and adds their texts, each with a line end, to
    /// `into`; the rest is held. Refusals: `BadLine`, a line isn't sealed as it has to be; `LongLine`, a line has more
    /// than 699,096 bytes, whether its end came or not; `Spent`, 2^64 - 1 lines were opened; `NoMemory`. Where it is
    /// refused the texts of the lines before that one are added, and nothing of it or after it, then or later: the wire
    /// fails so from then on. It costs O(n) for the n bytes that came, and where a line became whole for those of it
    /// that were held.
    pub fn open(&mut self, came: &[u8], into: &mut Vec<u8>) -> Result<(), WireFault>
        ensures opens { self.old.fault ≡ None → (text : List ℕ) × (into.new.items ≡ into.old.items ++ text)
            × OpensCame self.old came.now text result self.new }
        ensures over { (fault : AnyFault) → self.old.fault ≡ Some fault
            → (result ≡ Err fault) × (into.new.items ≡ into.old.items) × (self.new ≡ self.old) }
    {
        if let Some(fault) = self.fault {
            return Err(fault);
        }
        match self.open_lines(came, into) {
            Ok(()) => Ok(()),
            Err(fault) => {
                self.fault = Some(fault);
                Err(fault)
            }
        }
    }

    /// Seals whole lines at the front of a text until 65,536 bytes or more wait to be sent, or the text has no further
    /// whole line; answers how many bytes of the text were sealed. Those of up to 16,384 bytes are sealed at once, as
    /// one text, and a longer line by itself; none waits for a further one. Refusals, where the first of these texts
    /// isn't sealed: `LongLine`, the first line has more than 524,288 bytes; `Spent`, 2^64 - 1 texts were sealed;
    /// `NoMemory`. Where it is refused nothing changes; before a later text that isn't sealed it stops. It costs O(n)
    /// for n bytes that are sealed or wait.
    pub fn seal(&mut self, text: &[u8]) -> Result<usize, WireFault>
        ensures ok { IfOk result (λ count. SealsFront self.old text.now count self.new) }
        ensures opens { IfOk result (λ count. SendsSealed self.old text.now count self.new) }
        ensures stops { result ≡ Ok 0 → HasNoLf text.now ⊎ (waiting_limit ≤ length self.old.waiting) }
        ensures err { IfErr result (IsHeldUp self.old.outward text.now) }
        ensures kept { OnErr result (self.new ≡ self.old) }
    {
        self.drop_sent();
        let first = self.seal_batch(text)?;
        if first == 0 {
            return Ok(0);
        }
        let mut done = first;
        while let Ok(more) = self.seal_batch(text.split_at(done).1) {
            if more == 0 {
                return Ok(done);
            }
            done += more;
        }
        Ok(done)
    }

    /// What was sealed and isn't sent yet. It takes no memory.
    pub fn waiting(&self) -> &[u8]
        ensures { result.now ≡ self.now.waiting }
    {
        &self.sealed[self.sent..]
    }

    /// Takes note that so many of the bytes that wait were sent.
    pub fn note_sent(&mut self, count: usize)
        requires { count ≤ length self.old.waiting }
        ensures { self.new ≡ record self.old { waiting = drop count self.old.waiting } }
    {
        self.sent += count;
    }
}

impl Wire {
    /// Opens each line that is whole now, and holds the rest.
    fn open_lines(&mut self, came: &[u8], into: &mut Vec<u8>) -> Result<(), WireFault>
        ensures { (text : List ℕ) × (into.new.items ≡ into.old.items ++ text)
            × OpensLines self.old came.now text result self.new }
    {
        let mut rest = came;
        while let Some((piece, after)) = cut_line(rest) {
            match self.open_line(piece, into) {
                Ok(()) => rest = after,
                Err(fault) => return Err(fault),
            }
        }
        match self.hold(rest) {
            Ok(()) => Ok(()),
            Err(fault) => Err(fault),
        }
    }

    /// Opens the line that is held up to here and ends with this piece; nothing is held after that.
    fn open_line(&mut self, piece: &[u8], into: &mut Vec<u8>) -> Result<(), WireFault>
        requires { HasNoLf piece.now }
        ensures plain { HasNoLf (self.old.held ++ piece.now) }
        ensures ok { OnOk result ((text : List ℕ) × Opens self.old.inward (self.old.held ++ piece.now) text
            × (into.new.items ≡ into.old.items ++ as_line text)
            × (self.new ≡ record self.old { inward = after_line self.old.inward; held = [] })) }
        ensures err { IfErr result (IsUnopenable self.old.inward (self.old.held ++ piece.now)) }
        ensures kept { OnErr result ((into.new.items ≡ into.old.items) × KeepsRest self.old self.new) }
    {
        match self.hold(piece) {
            Ok(()) => self.open_held(into),
            Err(fault) => Err(fault),
        }
    }

    /// Opens the line that is held; nothing is held after that.
    fn open_held(&mut self, into: &mut Vec<u8>) -> Result<(), WireFault>
        ensures ok { OnOk result ((text : List ℕ) × Opens self.old.inward self.old.held text
            × (into.new.items ≡ into.old.items ++ as_line text)
            × (self.new ≡ record self.old { inward = after_line self.old.inward; held = [] })) }
        ensures err { IfErr result (IsUnopenable self.old.inward self.old.held) }
        ensures kept { OnErr result ((into.new.items ≡ into.old.items) × (self.new ≡ self.old)) }
    {
        match self.inward.open(self.alloc, self.held.as_slice(), into) {
            Ok(()) => {
                self.held.clear();
                Ok(())
            }
            Err(fault) => Err(WireFault::of(fault)),
        }
    }

    /// Holds more of a line.
    fn hold(&mut self, piece: &[u8]) -> Result<(), WireFault>
        requires { HasNoLf piece.now }
        ensures plain { HasNoLf (self.old.held ++ piece.now) }
        ensures ok { OnOk result (self.new ≡ record self.old { held = self.old.held ++ piece.now }) }
        ensures err { IfErr result (IsUnheld (self.old.held ++ piece.now)) }
        ensures kept { OnErr result (self.new ≡ self.old) }
    {
        if piece.len() > SEALED_LIMIT - self.held.len() {
            return Err(WireFault::LongLine);
        }
        match self.held.extend_from_slice(piece) {
            Ok(()) => Ok(()),
            Err(_) => Err(WireFault::NoMemory),
        }
    }

    /// Seals lines at the front of a text, as many as are sealed at once, and answers how many bytes these have, with
    /// their line ends; 0 where it has no whole line, or enough waits to be sent.
    fn seal_batch(&mut self, text: &[u8]) -> Result<usize, WireFault>
        ensures none { result ≡ Ok 0
            → (self.new ≡ self.old) × (HasNoLf text.now ⊎ (waiting_limit ≤ length self.old.waiting)) }
        ensures some { IfOk result (λ count. 0 < count → SealsFirst self.old text.now count self.new) }
        ensures err { IfErr result (IsHeldUp self.old.outward text.now) }
        ensures kept { OnErr result (self.new ≡ self.old) }
    {
        if self.waiting().len() >= WAITING {
            return Ok(0);
        }
        let Some(at) = batch_end(text, BATCH) else {
            return Ok(0);
        };
        match self.outward.seal(self.alloc, &text[..at], &mut self.sealed) {
            Ok(()) => Ok(at + 1),
            Err(fault) => Err(WireFault::of(fault)),
        }
    }

    /// Gives up the bytes that were sent.
    fn drop_sent(&mut self)
        ensures { self.new ≡ self.old }
    {
        self.sealed.drain(..self.sent);
        self.sent = 0;
    }
}

/// The first line of some bytes, without its LF, and what follows that; nothing where no line is whole.
fn cut_line(bytes: &[u8]) -> Option<(&[u8], &[u8])>
    ensures { MatchOption result (HasNoLf bytes.now)
        (λ cut. HasNoLf cut.0.now × (bytes.now ≡ as_line cut.0.now ++ cut.1.now)) }
{
    let at = first_lf(bytes)?;
    Some((&bytes[..at], bytes.split_at(at + 1).1))
}
