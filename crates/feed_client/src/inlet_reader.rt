//! Reads what an inlet has, as long as the session of the site lasts.

use super::inlet::{Block, Inlet};
use super::watch::is_over;
use std::alloc::Global;
use std::io;
use std::io::{ErrorKind, Read};
use std::net::TcpStream;
use std::sync::Wait;
use std::time::{Clock, Duration};

/// After how many milliseconds a waiting read checks again whether the session has ended.
const TICK_MS: u64 = 100;

/// The bytes of an input, as they come through an inlet. A read fails where the input does, and where the session ends
/// while it waits.
#[derive(Drop)]
pub struct InletReader<'a, R: Wait + Clock> {
    rt: &'a R,
    inlet: &'a Inlet,
    stream: &'a TcpStream,
    block: Vec<u8>,
    next: usize,
}

impl<'a, R: Wait + Clock> InletReader<'a, R> {
    pub fn new(
        rt: &'a R,
        alloc: Global,
        inlet: &'a Inlet,
        stream: &'a TcpStream,
    ) -> InletReader<'a, R> {
        InletReader {
            rt,
            inlet,
            stream,
            block: Vec::new(alloc),
            next: 0,
        }
    }

    /// Waits for the next block.
    fn next_block(&self) -> io::Result<Block> {
        for _ in 0..u64::MAX {
            if self
                .inlet
                .await_block(self.rt, Duration::from_millis(TICK_MS))
                && let Some(block) = self.inlet.take(self.rt)
            {
                return Ok(block);
            }
            if is_over(self.stream) {
                break;
            }
        }
        Err(io::Error::from(ErrorKind::ConnectionAborted))
    }
}

impl<'a, R: Wait + Clock> Read for InletReader<'a, R> {
    fn read(&mut self, into: &mut [u8]) -> io::Result<usize> {
        if self.block.len() <= self.next {
            self.next = 0;
            match self.next_block()? {
                Block::Bytes(bytes) => self.block = bytes,
                Block::End => {
                    self.block.clear();
                    return Ok(0);
                }
                Block::Failed => return Err(io::Error::from(ErrorKind::Other)),
            }
        }
        let rest = self.block.get(self.next..).unwrap_or(&[]);
        let count = rest.len().min(into.len());
        into[..count].copy_from_slice(&rest[..count]);
        self.next = self.next.saturating_add(count);
        Ok(count)
    }
}
