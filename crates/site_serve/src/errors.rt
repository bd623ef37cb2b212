//! The lines that a site's threads write to standard error.

ghost use Rattle.std.specs.Prelude.{◌≡◌, ◌++◌, IfOk, codes, decimal, string_bytes};
ghost use Rattle.refusal_line.specs.Line.{line_of};
ghost use Rattle.refusal_line.specs.declared.part.Part.TheVariants.{Peer};
ghost use Rattle.site_address.specs.Peer.{peer_text};

use super::session_fault::SessionFault;
use super::setup::ServeFault;
use byte_ends::{Drain, write_all};
use gossip_line::LineFault;
use key_file::KeyFault;
use key_files::keys_line;
use refusal_line::{Part, refusal_line};
use sealed_link::DialFault;
use site_address::PeerAddress;
use std::alloc::{AllocError, Global};
use std::sync::{Mutex, Wait};

/// The standard error of a site, which its threads share. A line that can't be written is lost, and so is one for which
/// memory is refused.
#[derive(Drop)]
pub struct Errors<E: Drain> {
    drain: Mutex<E>,
}

impl<E: Drain> Errors<E> {
    /// Over an end that bytes are written to.
    pub fn new(drain: E) -> Errors<E> {
        Errors {
            drain: Mutex::new(drain),
        }
    }

    /// Writes that a session ended with a fault.
    pub fn report_session_fault(
        &self,
        rt: &impl Wait,
        alloc: Global,
        fault: SessionFault,
        session: u64,
    ) {
        if let Ok(line) = line_about(alloc, Part::Session, fault.number(), fault.name(), session) {
            self.write(rt, line.as_str());
        }
    }

    /// Writes that a connection was closed, since as many as may be are open.
    pub fn report_too_many(&self, rt: &impl Wait, alloc: Global, open: usize) {
        if let Ok(line) = line_about(alloc, Part::Session, 9, "TooMany", open as u64) {
            self.write(rt, line.as_str());
        }
    }

    /// Writes that the system refused a connection, where so many are open.
    pub fn report_not_accepted(&self, rt: &impl Wait, alloc: Global, open: u64) {
        if let Ok(line) = line_about(alloc, Part::Session, 12, "NotAccepted", open) {
            self.write(rt, line.as_str());
        }
    }

    /// Writes that a pull from a peer failed.
    pub fn report_pull_fault(
        &self,
        rt: &impl Wait,
        alloc: Global,
        fault: LineFault,
        peer: PeerAddress<'_>,
    ) {
        if let Ok(line) = line_of_peer(alloc, fault.number(), fault.name(), peer) {
            self.write(rt, line.as_str());
        }
    }

    /// Writes that a peer can't be reached.
    pub fn report_unreachable(&self, rt: &impl Wait, alloc: Global, peer: PeerAddress<'_>) {
        if let Ok(line) = line_of_peer(alloc, 8, "Unreachable", peer) {
            self.write(rt, line.as_str());
        }
    }

    /// Writes that the pulls from a peer don't end: it reports that more is left, and sends nothing new.
    pub fn report_endless_pull(&self, rt: &impl Wait, alloc: Global, peer: PeerAddress<'_>) {
        if let Ok(line) = line_of_peer(alloc, 10, "NoEnd", peer) {
            self.write(rt, line.as_str());
        }
    }

    /// Writes that a pull from a peer succeeded again.
    pub fn report_recovered(&self, rt: &impl Wait, alloc: Global, peer: PeerAddress<'_>) {
        if let Ok(line) = line_of_peer(alloc, 0, "Back", peer) {
            self.write(rt, line.as_str());
        }
    }

    /// Writes that the handshake with a peer failed.
    pub fn report_dial_fault(
        &self,
        rt: &impl Wait,
        alloc: Global,
        fault: DialFault,
        peer: PeerAddress<'_>,
    ) {
        let (number, name) = words_of(fault);
        if let Ok(line) = line_of_peer(alloc, number, name, peer) {
            self.write(rt, line.as_str());
        }
    }

    /// Writes that the key for a peer can't be used.
    pub fn report_peer_key_fault(
        &self,
        rt: &impl Wait,
        alloc: Global,
        fault: KeyFault,
        peer: PeerAddress<'_>,
    ) {
        let mut name = String::new(alloc);
        if peer.write(&mut name).is_ok() {
            self.report_key_fault(rt, alloc, fault, name.as_str());
        }
    }

    /// Writes that the file of keys, or a key of it, can't be used, with the name of the file or of a peer.
    pub fn report_key_fault(&self, rt: &impl Wait, alloc: Global, fault: KeyFault, name: &str) {
        if let Ok(line) = keys_line(alloc, fault, name) {
            self.write(rt, line.as_str());
        }
    }

    /// Writes why a report couldn't be made.
    pub fn report_serve_fault(&self, rt: &impl Wait, alloc: Global, fault: ServeFault) {
        if let Ok(line) = refusal_line(alloc, Part::Serve, fault.number(), fault.name()) {
            self.write(rt, line.as_str());
        }
    }

    /// Writes that the output didn't take what was printed.
    pub fn report_output_fault(&self, rt: &impl Wait, alloc: Global) {
        if let Ok(line) = refusal_line(alloc, Part::Output, 1, "WriteFault") {
            self.write(rt, line.as_str());
        }
    }

    /// Writes a line, unless the end doesn't take it.
    fn write(&self, rt: &impl Wait, line: &str) {
        let mut drain = self.drain.lock(rt);
        let _lost = write_all(&mut *drain, line.as_bytes());
    }
}

/// The line of a fault, and of what it is about.
fn line_about(
    alloc: Global,
    part: Part,
    number: u8,
    name: &str,
    about: u64,
) -> Result<String, AllocError>
    ensures { IfOk result (λ line. string_bytes line ≡ line_of part number (name.now ++ codes " " ++ decimal about)) }
{
    let words = format!(in alloc; "{name} {about}")?;
    refusal_line(alloc, part, number, words.as_str())
}

/// The line about a pull from a peer, with the peer's address.
fn line_of_peer(
    alloc: Global,
    number: u8,
    name: &str,
    peer: PeerAddress<'_>,
) -> Result<String, AllocError>
    ensures { IfOk result
        (λ line. string_bytes line ≡ line_of Peer number (name.now ++ codes " " ++ peer_text peer.entry)) }
{
    let mut words = format!(in alloc; "{name} ")?;
    peer.write(&mut words)?;
    refusal_line(alloc, Part::Peer, number, words.as_str())
}

/// The number and the name of a failed handshake with a peer.
fn words_of(fault: DialFault) -> (u8, &'static str) {
    match fault {
        DialFault::ReadFault => (3, "ReadFault"),
        DialFault::WriteFault => (4, "WriteFault"),
        DialFault::NoMemory => (5, "NoMemory"),
        DialFault::BadAnswer => (6, "BadAnswer"),
        DialFault::NoKey => (13, "NoKey"),
        DialFault::NotProved => (14, "NotProved"),
    }
}
