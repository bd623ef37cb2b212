//! The parts of the program.

ghost use Rattle.std.specs.Prelude.{◌≡◌};

/// A part of the program that may refuse something.
#[derive(Clone, Copy, Debug, PartialEq, Eq)]
pub enum Part {
    /// What a script says.
    Script,
    /// What a snapshot says, and whether it is read.
    Snapshot,
    /// What a gate file says.
    Gate,
    /// What a journal says, and whether it is read and written.
    Journal,
    /// Whether another file is read.
    File,
    /// The item or the change that a command asks for.
    Item,
    /// What a gate file's check finds.
    Check,
    /// Whether the output takes what is printed.
    Output,
    /// Memory, where no other part has it.
    Memory,
    /// A site as a whole.
    Serve,
    /// A session of a site.
    Session,
    /// A pull from a peer of a site.
    Peer,
    /// A feed.
    Events,
    /// Handing items to Zuul.
    Enqueue,
    /// Planning a feed's queries.
    Queries,
    /// The file of keys of sealed connections.
    Keys,
}

impl Part {
    ghost use Rattle.refusal_line.specs.Line.{name_of};

    /// The part's name in lines.
    pub fn name(self) -> &'static str
        ensures { result.now ≡ name_of self }
    {
        match self {
            Part::Script => "script",
            Part::Snapshot => "snapshot",
            Part::Gate => "gate",
            Part::Journal => "journal",
            Part::File => "file",
            Part::Item => "item",
            Part::Check => "check",
            Part::Output => "output",
            Part::Memory => "memory",
            Part::Serve => "serve",
            Part::Session => "session",
            Part::Peer => "peer",
            Part::Events => "events",
            Part::Enqueue => "enqueue",
            Part::Queries => "queries",
            Part::Keys => "keys",
        }
    }
}
