//! The seal of one direction.

ghost use Rattle.std.specs.Prelude.{◌≡◌, ◌<◌, ◌≤◌, ◌++◌, Err, List, ℕ, IfErr, IfOk, OnErr, OnOk, length, string_bytes};
ghost use Rattle.base64.specs.Engines.{standard};
ghost use Rattle.base64.specs.GeneralPurpose.{IsBytes, encode_of};
ghost use Rattle.byte_ends.specs.Lines.{as_line};
ghost use Rattle.sealed_line.specs.Sealing.{IsUndecoded, IsUnopened, IsUnsealed, Opens, after_line, crossed, last_count, most_line_bytes, sealed};

use super::cross::cross;
use super::fault::SealFault;
use base64::DecodeAllocError;
use base64::engine::general_purpose::STANDARD;
use keyed_digest::Mac;
use std::alloc::{AllocError, Allocator};
use std::marker::Model;

/// How many bytes a text may have.
const LINE_LIMIT: usize = 524_288;

/// How many bytes a tag has.
const TAG: usize = 32;

/// What seals, or opens, the lines of one direction, in their order. Contracts see its keys and how many lines it has
/// sealed or opened; nothing prints them.
#[derive(Drop)]
pub struct Seal {
    tags: Mac,
    cipher: [u8; 32],
    count: u64,
}

impl Model for Seal {
    ghost use Rattle.sealed_line.specs.Sealing.{Sealing};

    ghost Value = { Sealing };

    ghost view = { λ seal. record { tags = seal.tags; cipher = seal.cipher; count = seal.count } };
}

impl Seal {
    /// Seals lines under these keys, from the first one on. Each key is for one direction alone.
    pub fn new(tags: &[u8; 32], cipher: &[u8; 32]) -> Seal
        ensures { result ≡ record { tags = tags.now; cipher = cipher.now; count = 0 } }
    {
        Seal {
            tags: Mac::new(tags),
            cipher: *cipher,
            count: 0,
        }
    }

    /// How many lines it has sealed or opened. It takes no memory.
    pub fn count(&self) -> u64
        ensures { result ≡ self.now.count }
    {
        self.count
    }

    /// Seals a text as the next line, and adds that to `into`, with its line end. Refusals: `LongLine`, the text has
    /// more than 524,288 bytes; `Spent`, 2^64 - 1 lines were sealed; `NoMemory`. Where it is refused nothing changes.
    /// It costs O(n) for n bytes.
    pub fn seal<A: Allocator + Copy>(
        &mut self,
        alloc: A,
        text: &[u8],
        into: &mut Vec<u8, A>,
    ) -> Result<(), SealFault>
        ensures ok { OnOk result ((into.new.items ≡ into.old.items ++ as_line (sealed self.old (crossed self.old text.now)))
            × (self.new ≡ after_line self.old)) }
        ensures err { IfErr result (IsUnsealed self.old text.now) }
        ensures opens { OnOk result (Opens self.old (sealed self.old (crossed self.old text.now)) text.now) }
        ensures kept { OnErr result ((self.new ≡ self.old) × (into.new.items ≡ into.old.items)) }
        ensures long { most_line_bytes < length text.now → result ≡ Err SealFault.LongLine }
        ensures spent { length text.now ≤ most_line_bytes → self.old.count ≡ last_count → result ≡ Err SealFault.Spent }
    {
        if text.len() > LINE_LIMIT {
            return Err(SealFault::LongLine);
        }
        let Some(next) = self.count.checked_add(1) else {
            return Err(SealFault::Spent);
        };
        let Ok(line) = self.sealed_line(alloc, text) else {
            return Err(SealFault::NoMemory);
        };
        if into.extend_from_slice(line.as_bytes()).is_err() {
            return Err(SealFault::NoMemory);
        }
        self.count = next;
        Ok(())
    }

    /// Opens the next line, which is given without its line end, and adds its text to `into`, with a line end.
    /// Refusals: `BadSeal`, no text is sealed to that line under these keys and this count; `Spent`, 2^64 - 1 lines
    /// were opened; `NoMemory`. Where it is refused nothing changes. It costs O(n) for n bytes.
    pub fn open<A: Allocator + Copy>(
        &mut self,
        alloc: A,
        line: &[u8],
        into: &mut Vec<u8, A>,
    ) -> Result<(), SealFault>
        ensures ok { OnOk result ((text : List ℕ) × Opens self.old line.now text
            × (into.new.items ≡ into.old.items ++ as_line text) × (self.new ≡ after_line self.old)) }
        ensures err { IfErr result (IsUnopened self.old line.now) }
        ensures kept { OnErr result ((self.new ≡ self.old) × (into.new.items ≡ into.old.items)) }
        ensures spent { self.old.count ≡ last_count → result ≡ Err SealFault.Spent }
    {
        let Some(next) = self.count.checked_add(1) else {
            return Err(SealFault::Spent);
        };
        let text = self.opened_line(alloc, line)?;
        if into.extend_from_slice(text.as_slice()).is_err() {
            return Err(SealFault::NoMemory);
        }
        self.count = next;
        Ok(())
    }
}

impl Seal {
    /// A text as the next line, with its line end.
    fn sealed_line<A: Allocator + Copy>(
        &self,
        alloc: A,
        text: &[u8],
    ) -> Result<String<A>, AllocError>
        requires { length text.now ≤ most_line_bytes }
        ensures { IfOk result (λ line. string_bytes line ≡ as_line (sealed self.now (crossed self.now text.now))) }
    {
        let mut body = vec![in alloc; 0u8; text.len() + TAG]?;
        let (cipher, tag) = body.as_mut_slice().split_at_mut(text.len());
        cross(&self.cipher, self.count, text, cipher);
        tag.copy_from_slice(&self.tags.tag(&self.count.to_be_bytes(), cipher));
        let mut line = STANDARD.encode(alloc, body.as_slice())?;
        line.push_str("\n")?;
        Ok(line)
    }

    /// The text of the next line, with a line end.
    fn opened_line<A: Allocator + Copy>(
        &self,
        alloc: A,
        line: &[u8],
    ) -> Result<Vec<u8, A>, SealFault>
        ensures ok { IfOk result (λ opened. (text : List ℕ) × Opens self.now line.now text × (opened.items ≡ as_line text)) }
        ensures err { IfErr result (IsUnopened self.now line.now) }
    {
        let body = match decoded(alloc, line) {
            Ok(body) => body,
            Err(fault) => return Err(fault),
        };
        let bytes = body.as_slice();
        let Some(length) = bytes.len().checked_sub(TAG) else {
            return Err(SealFault::BadSeal);
        };
        let (cipher, tag) = bytes.split_at(length);
        if !self.tags.is_tag(&self.count.to_be_bytes(), cipher, tag) {
            return Err(SealFault::BadSeal);
        }
        match self.text_of(alloc, cipher) {
            Ok(text) => Ok(text),
            Err(_) => Err(SealFault::NoMemory),
        }
    }

    /// The text of a cipher, with a line end.
    fn text_of<A: Allocator + Copy>(
        &self,
        alloc: A,
        cipher: &[u8],
    ) -> Result<Vec<u8, A>, AllocError>
        ensures { IfOk result (λ text. text.items ≡ as_line (crossed self.now cipher.now)) }
    {
        let mut text = vec![in alloc; 0u8; cipher.len()]?;
        cross(&self.cipher, self.count, cipher, text.as_mut_slice());
        text.push(b'\n')?;
        Ok(text)
    }
}

/// The bytes that a line writes as base64.
fn decoded<A: Allocator + Copy>(alloc: A, line: &[u8]) -> Result<Vec<u8, A>, SealFault>
    ensures ok { IfOk result (λ body. IsBytes body.items × (line.now ≡ encode_of standard body.items)) }
    ensures err { IfErr result (IsUndecoded line.now) }
{
    match STANDARD.decode(alloc, line) {
        Ok(body) => Ok(body),
        Err(DecodeAllocError::OutOfMemory) => Err(SealFault::NoMemory),
        Err(DecodeAllocError::DecodeError(_)) => Err(SealFault::BadSeal),
    }
}
