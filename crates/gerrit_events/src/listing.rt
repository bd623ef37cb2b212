//! All votes of a patch set, as a line of a query lists them.

/// Who voted on which label, which is in lower case.
#[derive(Debug, Drop)]
pub struct Ballot {
    pub label: String,
    pub voter: String,
}

/// All votes of a patch set: no one else has voted on it.
#[derive(Debug, Drop)]
pub struct Listing {
    pub change: u32,
    pub set: u32,
    pub ballots: Vec<Ballot>,
}
