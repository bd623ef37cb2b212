//! Bases, copies of them, and the footers of a message.

use super::turns::{Call, Memory, Seen, assert_each};
use footer_text::{Bases, depends};

/// The bases of a site with two servers.
const BASES: [&str; 2] = ["https://review.example.org/", "https://r/"];

/// A message with two footers that name changes, and two that don't.
const MESSAGE: &str =
    "Add x\n\nDepends-On: https://review.example.org/12\nDepends-On: https://other.example.org/14\n\
    Depends-On: https://r/11\nDepends-On: 15\n";

/// Which of the calls is made.
#[derive(Clone, Copy)]
enum Calls {
    Bases,
    Copy,
    Footers,
}

/// The bases, where memory suffices for them.
fn bases(memory: &Memory) -> Option<Bases<&Memory>> {
    Bases::new(memory, &BASES).ok()
}

/// Whether the message depends on what it names under these bases, and the others are ignored.
fn is_found<'a>(memory: &'a Memory, bases: &Bases<&'a Memory>) -> Option<bool> {
    let found = depends(memory, bases, 9, MESSAGE).ok()?;
    let is_needed = found.needs.as_slice() == [11, 12].as_slice();
    Some(is_needed && found.ignored.as_slice() == ["https://other.example.org/14", "15"].as_slice())
}

/// Whether the message's footers are found under these bases, where there are some.
fn is_right<'a>(memory: &'a Memory, bases: Option<Bases<&'a Memory>>) -> Option<bool> {
    Some(is_found(memory, &bases?) == Some(true))
}

/// Whether the copy of these bases is as they are, and whether memory was refused for it.
fn is_copied<'a>(
    memory: &'a Memory,
    bases: &Bases<&'a Memory>,
    granted: u32,
) -> (Option<bool>, bool) {
    memory.refuse_after(granted);
    let copy = bases.copy().ok();
    let refused = memory.grant_all();
    (is_right(memory, copy), refused)
}

/// Whether the bases are as they have to be, and whether memory was refused for them.
fn is_made(memory: &Memory, granted: u32) -> (Option<bool>, bool) {
    memory.refuse_after(granted);
    let made = bases(memory);
    let refused = memory.grant_all();
    (is_right(memory, made), refused)
}

/// Whether the footers are found, and whether memory was refused for them.
fn is_looked_for<'a>(
    memory: &'a Memory,
    bases: &Bases<&'a Memory>,
    granted: u32,
) -> (Option<bool>, bool) {
    memory.refuse_after(granted);
    let found = is_found(memory, bases);
    (found, memory.grant_all())
}

/// Whether a call answered what it has to, none where it failed, and whether memory was refused for it.
fn call<'a>(
    memory: &'a Memory,
    bases: &Bases<&'a Memory>,
    calls: Calls,
    granted: u32,
) -> (Option<bool>, bool) {
    match calls {
        Calls::Bases => is_made(memory, granted),
        Calls::Copy => is_copied(memory, bases, granted),
        Calls::Footers => is_looked_for(memory, bases, granted),
    }
}

impl Call for Calls {
    fn seen(self, memory: &Memory, granted: u32) -> Option<Seen> {
        let bases = bases(memory)?;
        let (answer, refused) = call(memory, &bases, self, granted);
        let (again, _) = call(memory, &bases, self, u32::MAX);
        Some(Seen {
            failed: answer.is_none(),
            refused,
            stated: answer != Some(false),
            whole: again == Some(true),
        })
    }
}

#[test]
fn bases_and_footers_are_whole_or_refused(rt: HostRuntime) {
    assert_each(&rt, rt.alloc(), Calls::Bases, 3);
    assert_each(&rt, rt.alloc(), Calls::Copy, 3);
    assert_each(&rt, rt.alloc(), Calls::Footers, 2);
}
