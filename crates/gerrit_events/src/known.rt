//! The revisions that a run has seen.

ghost use Rattle.std.specs.Prelude.{◌≡◌, [], ◌∷◌, ◌++◌, None, OnOk, OnErr, map, drop};
ghost use Rattle.gerrit_events.specs.Revisions.{revision_place, with_revision};
ghost use Rattle.gerrit_events.specs.RevisionsKept.{seen_shown, PlacesAgree};

use json::Scratch;
use lattice_core::NoMemory;
use std::alloc::Global;
use std::collections::{HashMap, VecDeque};
use std::marker::Model;

/// How many revisions are kept.
const MOST: usize = 100000;

/// A revision, which is a commit in a project, and of which patch set it is.
#[derive(Drop)]
pub struct Seen {
    pub revision: String,
    pub change: u32,
    pub set: u32,
}

/// What a run keeps between lines: the revisions that it has seen, and a buffer for parsing. Contracts see the list of
/// revisions, oldest first.
#[derive(Drop)]
pub struct Known {
    pub(crate) revisions: Revisions,
    pub(crate) room: Scratch,
}

impl Model for Known {
    ghost use Rattle.std.specs.Prelude.{List};
    ghost use Rattle.gerrit_events.specs.Revisions.{Revision};

    ghost Value = { List Revision };

    ghost view = { λ known. known.revisions };
}

impl Known {
    /// Nothing is known yet.
    pub fn new(alloc: Global) -> Known
        ensures { result ≡ [] }
    {
        Known {
            revisions: Revisions::new(alloc),
            room: Scratch::new(alloc),
        }
    }

    /// The change and the patch set of a revision, where it is known. It is looked up by its hash.
    pub fn place_of(&self, revision: &str) -> Option<(u32, u32)>
        ensures { result ≡ revision_place self.now revision.now }
    {
        self.revisions.place_of(revision)
    }

    /// Learns of a revision. One that is known stays as it is; where they are too many the oldest is forgotten. Where
    /// memory is refused nothing changes. It is looked up by its hash.
    pub fn learn(&mut self, revision: &str, change: u32, set: u32) -> Result<(), NoMemory>
        ensures ok { OnOk result (self.new ≡ with_revision self.old (revision.now, (change, set))) }
        ensures err { OnErr result (self.new ≡ self.old) }
    {
        self.revisions.learn(revision, change, set)
    }
}

/// A map from at most 100,000 revisions to their change and patch set. When it is full the oldest revision is
/// forgotten. Contracts see the list of revisions, oldest first.
#[derive(Drop)]
pub struct Revisions {
    alloc: Global,
    ages: VecDeque<Seen>,
    places: HashMap<String, (u32, u32)>,
}

impl Model for Revisions {
    ghost use Rattle.std.specs.Prelude.{List, map};
    ghost use Rattle.gerrit_events.specs.Revisions.{Revision};
    ghost use Rattle.gerrit_events.specs.RevisionsKept.{seen_shown, AreKeptRevisions};

    ghost Value = { List Revision };

    ghost view = { λ known. map seen_shown known.ages.items };

    ghost invariant = { λ known. AreKeptRevisions known.places (map seen_shown known.ages.items) };
}

impl Revisions {
    /// Nothing is known yet.
    pub fn new(alloc: Global) -> Revisions
        ensures { result ≡ [] }
    {
        Revisions {
            alloc,
            ages: VecDeque::new(alloc),
            places: HashMap::new(alloc),
        }
    }

    /// The change and the patch set of a revision, where it is known.
    pub fn place_of(&self, revision: &str) -> Option<(u32, u32)>
        ensures { result ≡ revision_place self.now revision.now }
    {
        self.places.get(revision).copied()
    }

    /// Learns of a revision, where it isn't known.
    pub fn learn(&mut self, revision: &str, change: u32, set: u32) -> Result<(), NoMemory>
        ensures ok { OnOk result (self.new ≡ with_revision self.old (revision.now, (change, set))) }
        ensures err { OnErr result (self.new ≡ self.old) }
    {
        if self.place_of(revision).is_some() {
            return Ok(());
        }
        add_seen(
            self.alloc,
            &mut self.ages,
            &mut self.places,
            revision,
            (change, set),
        )?;
        if self.ages.len() > MOST {
            forget_oldest(&mut self.ages, &mut self.places);
        }
        Ok(())
    }
}

/// Adds a revision that isn't known. Where memory is refused nothing changes.
fn add_seen(
    alloc: Global,
    ages: &mut VecDeque<Seen>,
    places: &mut HashMap<String, (u32, u32)>,
    revision: &str,
    place: (u32, u32),
) -> Result<(), NoMemory>
    requires agree { PlacesAgree places.old (map seen_shown ages.old.items) }
    requires unknown { revision_place (map seen_shown ages.old.items) revision.now ≡ None }
    ensures agree { PlacesAgree places.new (map seen_shown ages.new.items) }
    ensures ok { OnOk result (map seen_shown ages.new.items
        ≡ map seen_shown ages.old.items ++ (revision.now, place) ∷ []) }
    ensures err { OnErr result (ages.new.items ≡ ages.old.items) }
{
    let seen = Seen {
        revision: String::from_str(alloc, revision)?,
        change: place.0,
        set: place.1,
    };
    places.insert(String::from_str(alloc, revision)?, place)?;
    if ages.push_back(seen).is_err() {
        places.remove(revision);
        return Err(NoMemory);
    }
    Ok(())
}

/// Forgets the oldest revision.
fn forget_oldest(ages: &mut VecDeque<Seen>, places: &mut HashMap<String, (u32, u32)>)
    requires { PlacesAgree places.old (map seen_shown ages.old.items) }
    ensures agree { PlacesAgree places.new (map seen_shown ages.new.items) }
    ensures rest { map seen_shown ages.new.items ≡ drop 1 (map seen_shown ages.old.items) }
{
    if let Some(oldest) = ages.pop_front() {
        places.remove(oldest.revision.as_str());
    }
}
