//! The input buffer of a session: bytes that were read and aren't handled yet.

ghost use Rattle.std.specs.Prelude.{◌≡◌, ◌<◌, ◌≤◌, ◌+◌, ◌++◌, [], Err, List, ℕ, MatchBool, MatchOption, None, OnErr, OnOk, Some, drop, length, take};
ghost use Rattle.byte_ends.specs.Lines.{without_cr};
ghost use Rattle.line_reader.specs.Lines.{HasFirstLf, HasNoLf};
ghost use Rattle.sealed_link.specs.Lines.{OpensCame};
ghost use Rattle.sealed_link.specs.declared.fault.WireFault.{WireFault as AnyFault};

use byte_ends::without_cr;
use line_reader::{LINE_LIMIT, first_lf};
use sealed_link::{Wire, WireFault};
use std::alloc::{AllocError, Global};
use std::marker::Model;

/// The bytes that were read of a session, from the first line that isn't handled yet. Contracts see these bytes.
#[derive(Drop)]
pub(super) struct Inbox {
    bytes: Vec<u8>,
    /// How many bytes are handled.
    next: usize,
    /// How many of the bytes after these are known to have no line end.
    scanned: usize,
}

impl Model for Inbox {
    ghost use Rattle.std.specs.Prelude.{List, ℕ, drop, vec_len};
    ghost use Rattle.site_serve.specs.Inboxes.{IsScanned};

    ghost Value = { List ℕ };

    ghost view = { λ inbox. drop inbox.next inbox.bytes.items };

    ghost invariant = { λ inbox. IsScanned inbox.next inbox.scanned (vec_len inbox.bytes) inbox.bytes.items };
}

impl Inbox {
    /// Nothing was read yet.
    pub(super) fn new(alloc: Global) -> Inbox
        ensures { result ≡ [] }
    {
        Inbox {
            bytes: Vec::new(alloc),
            next: 0,
            scanned: 0,
        }
    }

    /// The size of the next line, where that was read whole. Each byte is looked at once.
    pub(super) fn next_line(&mut self) -> Option<usize>
        ensures same { self.new ≡ self.old }
        ensures found { MatchOption result (HasNoLf self.new) (HasFirstLf self.new) }
    {
        match first_lf(&self.bytes[self.next + self.scanned..]) {
            Some(at) => Some(self.scanned + at),
            None => {
                self.scanned = self.bytes.len() - self.next;
                None
            }
        }
    }

    /// The next line, of this size, without the carriage return at its end.
    pub(super) fn line(&self, size: usize) -> &[u8]
        requires { size ≤ length self.now }
        ensures { result.now ≡ without_cr (take size self.now) }
    {
        without_cr(&self.bytes[self.next..self.next + size])
    }

    /// Skips a line of this size and its line end.
    pub(super) fn skip_line(&mut self, size: usize)
        requires { size < length self.old }
        ensures { self.new ≡ drop (size + 1) self.old }
    {
        let end = self.next + size;
        self.next = end + 1;
        self.scanned = 0;
    }

    /// Whether more is held than a line may have.
    pub(super) fn is_too_long(&self) -> bool
        ensures { MatchBool result (524288 < length self.now) (length self.now ≤ 524288) }
    {
        self.bytes.len() - self.next > LINE_LIMIT
    }

    /// Appends bytes, after it dropped the handled ones. If memory is refused the new bytes are lost.
    pub(super) fn keep(&mut self, came: &[u8]) -> Result<(), AllocError>
        ensures ok { OnOk result (self.new ≡ self.old ++ came.now) }
        ensures err { OnErr result (self.new ≡ self.old) }
    {
        self.drop_done();
        self.bytes.extend_from_slice(came)
    }

    /// Keeps what opens of what came, in place of what is done: nothing once the wire has failed. What opens is whole
    /// lines, so that none is looked at twice.
    pub(super) fn keep_opened(&mut self, wire: &mut Wire, came: &[u8]) -> Result<(), WireFault>
        ensures opens { wire.old.fault ≡ None → (text : List ℕ) × (self.new ≡ self.old ++ text)
            × OpensCame wire.old came.now text result wire.new }
        ensures over { (fault : AnyFault) → wire.old.fault ≡ Some fault
            → (result ≡ Err fault) × (self.new ≡ self.old) × (wire.new ≡ wire.old) }
    {
        self.drop_done();
        self.scanned = 0;
        wire.open(came, &mut self.bytes)
    }

    /// Drops the handled bytes.
    fn drop_done(&mut self)
        ensures { self.new ≡ self.old }
    {
        self.bytes.drain(..self.next);
        self.next = 0;
    }
}
