//! Whose a file of keys is.

ghost use Rattle.std.specs.Prelude.{◌≡◌, ◌↔◌, IfErr, IfOk, IsTrue};
ghost use Rattle.byte_ends.specs.Lines.{lines_of};
ghost use Rattle.key_file.specs.Files.{Say};
ghost use Rattle.key_files.specs.Owners.{IsUsersOwn, IsNotRead};

use key_file::{KeyFault, Keys, read_keys};
use std::alloc::Global;

/// What the system says of an open file.
#[derive(Clone, Copy, Debug, PartialEq, Eq)]
pub struct FileOwner {
    /// Its mode, of which the last nine bits are the permissions.
    pub mode: u32,
    /// The number of the user whose it is.
    pub user: u32,
}

impl FileOwner {
    /// Whether a file is this user's, and neither its group nor others may read, write or run it.
    fn is_own(&self, user: u32) -> bool
        ensures { IsTrue result ↔ IsUsersOwn self.now user }
    {
        self.user == user && self.mode & 0o77 == 0
    }
}

/// The keys of a file with this text, for this user. Refusals: 1 `Open`, the file is another user's, or its group or
/// others have a permission for it; 2 `BadLine n`; 5 `NoMemory`. It costs O(n) for n bytes.
pub fn owned_keys(alloc: Global, owner: FileOwner, user: u32, text: &[u8]) -> Result<Keys, KeyFault>
    ensures own { IfOk result (λ _. IsUsersOwn owner user) }
    ensures ok { IfOk result (λ keys. Say (lines_of text.now) keys) }
    ensures err { IfErr result (IsNotRead owner user text.now) }
{
    if !owner.is_own(user) {
        return Err(KeyFault::Open);
    }
    read_keys(alloc, text)
}
