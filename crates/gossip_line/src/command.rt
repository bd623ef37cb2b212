//! What a line of a session asks for.

ghost use Rattle.std.specs.Prelude.{IfNone, IfSome};
ghost use Rattle.gossip_line.specs.Commands.{BeginsLine, Follows, Says, version_word, take_word, front_word};

/// The greeting of this protocol version.
pub const HELLO: &[u8] = b"hello 2";

/// What a line asks for. What follows `take` and `front` isn't read yet.
#[derive(Drop)]
pub enum Command<'a> {
    /// To use this protocol version.
    Hello,
    /// To use another version.
    OtherVersion,
    /// To take in a body.
    Take(&'a [u8]),
    /// To answer what a front lacks.
    Front(&'a [u8]),
    /// To report which items are ready.
    Ready,
    /// To show the state.
    State,
    /// To note that a feed has heard from Gerrit.
    Heard,
    /// To end the session.
    Quit,
    /// An unknown command.
    Other,
}

/// What a line asks for.
pub fn command_of<'a>(line: &'a [u8]) -> Command<'a>
    ensures { Says line.entry.now result }
{
    if line == HELLO {
        return Command::Hello;
    }
    if after(line, b"hello ").is_some() {
        return Command::OtherVersion;
    }
    if let Some(text) = after(line, b"take ") {
        return Command::Take(text);
    }
    if let Some(text) = after(line, b"front ") {
        return Command::Front(text);
    }
    word_of(line)
}

/// What follows a word in a line.
pub fn after<'a>(line: &'a [u8], word: &[u8]) -> Option<&'a [u8]>
    ensures found { IfSome result (λ text. Follows word.now line.entry.now text.now) }
    ensures none { IfNone result (¬ BeginsLine word.now line.entry.now) }
{
    if line.len() < word.len() {
        return None;
    }
    let (front, text) = line.split_at(word.len());
    if front == word { Some(text) } else { None }
}

/// What a line of one word asks for.
fn word_of<'a>(line: &'a [u8]) -> Command<'a>
    requires version { ¬ BeginsLine version_word line.now }
    requires take { ¬ BeginsLine take_word line.now }
    requires front { ¬ BeginsLine front_word line.now }
    ensures { Says line.entry.now result }
{
    if line == b"ready".as_slice() {
        return Command::Ready;
    }
    if line == b"state".as_slice() {
        return Command::State;
    }
    if line == b"heard".as_slice() {
        return Command::Heard;
    }
    if line == b"quit".as_slice() {
        return Command::Quit;
    }
    Command::Other
}
