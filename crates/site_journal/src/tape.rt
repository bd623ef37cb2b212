//! What a journal lies on.

ghost use Rattle.std.specs.Prelude.{◌≡◌, ◌≤◌, ℕ, List, Option, IfSome, length};
ghost use Rattle.std.specs.Io.{ReadsAtMost};
ghost use Rattle.std.specs.Io.KnownBytes.{ReadConsumes};
ghost use Rattle.byte_ends.specs.Failures.{CountsFailure};
ghost use Rattle.site_journal.specs.Feeds.{feed_source};
ghost use Rattle.site_journal.specs.Tape.{Changes, Image, IsAppended, CutsTape, IsSynced, IsWhole};

use byte_ends::{Failed, Source};

/// What the text of a journal is read from.
pub trait Feed {
    /// What it has, where that is known.
    ghost image: { Self → Option Image };

    /// The bytes that reads will give from here on, where they are known.
    ghost left: { Self → Option (List ℕ) };

    /// How many calls have failed. The count stays at `u64::MAX`.
    ghost failed: { Self → ℕ };

    /// Reads some bytes into the front of the slice, and answers how many. 0 on a slice that isn't empty is the end.
    fn read(&mut self, into: &mut [u8]) -> Result<usize, Failed>
        ensures bound { ReadsAtMost result into.new }
        ensures bytes { ReadConsumes (left self.old) (left self.new) result into.new }
        ensures same { image self.new ≡ image self.old }
        ensures counted { CountsFailure (failed self.old) (failed self.new) result };
}

/// A tape that grows at its end, and of which a crash leaves a prefix: at least what was synced, and no more than what
/// was written.
pub trait Tape: Feed {
    /// Writes the bytes at the end. Where it fails some prefix of them may be there.
    fn append(&mut self, bytes: &[u8]) -> Result<(), Failed>
        requires { IfSome (Self.image self.old) IsWhole }
        ensures written { Changes (Self.image self.old) (Self.image self.new) (IsAppended bytes.now result) }
        ensures counted { CountsFailure (Self.failed self.old) (Self.failed self.new) result };

    /// Has all that was written stay, whatever happens. From a failure on no later success is believed.
    fn sync(&mut self) -> Result<(), Failed>
        ensures synced { Changes (Self.image self.old) (Self.image self.new) (IsSynced result) }
        ensures counted { CountsFailure (Self.failed self.old) (Self.failed self.new) result };

    /// Takes away what is past so many bytes.
    fn cut(&mut self, len: u64) -> Result<(), Failed>
        requires { IfSome (Self.image self.old) (λ image. len ≤ length image.contents) }
        ensures cut { Changes (Self.image self.old) (Self.image self.new) (CutsTape len result) }
        ensures counted { CountsFailure (Self.failed self.old) (Self.failed self.new) result };
}

/// A source as a feed, of which nothing is known but what it has left.
#[derive(Drop)]
pub struct SourceFeed<S: Source> {
    source: S,
}

impl<S: Source> SourceFeed<S> {
    /// Over this source.
    pub fn new(source: S) -> SourceFeed<S>
        ensures { feed_source result ≡ source }
    {
        SourceFeed { source }
    }
}

impl<S: Source> Feed for SourceFeed<S> {
    ghost use Rattle.std.specs.Prelude.{None};

    ghost image = { λ _. None };

    ghost left = { λ feed. S.left (feed_source feed) };

    ghost failed = { λ feed. S.failed (feed_source feed) };

    fn read(&mut self, into: &mut [u8]) -> Result<usize, Failed> {
        self.source.read(into)
    }
}
