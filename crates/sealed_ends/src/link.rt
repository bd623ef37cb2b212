//! The ends of a connection, sealed or not.

ghost use Rattle.sealed_ends.specs.Links.{link_failed, link_left, link_taken, link_writes_failed};

use super::drain::SealedDrain;
use super::source::SealedSource;
use byte_ends::{Drain, Failed, Source};

/// What a connection is read from: lines as they are, or the texts of sealed ones.
#[derive(Drop)]
pub enum LinkSource<S> {
    /// Its lines are read as they are.
    Plain(S),
    /// Its lines are opened.
    Sealed(SealedSource<S>),
}

/// What a connection is written to, as lines that are as they are, or that are sealed.
#[derive(Drop)]
pub enum LinkDrain<D> {
    /// Its lines are written as they are.
    Plain(D),
    /// Its lines are sealed.
    Sealed(SealedDrain<D>),
}

impl<S: Source> Source for LinkSource<S> {
    ghost left = { link_left S.left };

    ghost failed = { link_failed S.failed };

    fn read(&mut self, into: &mut [u8]) -> Result<usize, Failed> {
        match self {
            LinkSource::Plain(source) => source.read(into),
            LinkSource::Sealed(source) => source.read(into),
        }
    }

    fn failures(&self) -> u64 {
        match self {
            LinkSource::Plain(source) => source.failures(),
            LinkSource::Sealed(source) => source.failures(),
        }
    }
}

impl<D: Drain> Drain for LinkDrain<D> {
    ghost taken = { link_taken D.taken };

    ghost failed = { link_writes_failed D.failed };

    fn write(&mut self, bytes: &[u8]) -> Result<usize, Failed> {
        match self {
            LinkDrain::Plain(drain) => drain.write(bytes),
            LinkDrain::Sealed(drain) => drain.write(bytes),
        }
    }

    fn failures(&self) -> u64 {
        match self {
            LinkDrain::Plain(drain) => drain.failures(),
            LinkDrain::Sealed(drain) => drain.failures(),
        }
    }
}
