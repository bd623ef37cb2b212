//! A key.

ghost use Rattle.std.specs.Prelude.{◌≡◌};
ghost use Rattle.key_file.specs.Files.{KeyEntry};

use std::marker::Model;

/// What a key allows.
#[derive(Clone, Copy, Debug, PartialEq, Eq)]
pub enum Role {
    /// Look: `ready`, `state`, `front`.
    Read,
    /// Look, and have bodies taken in: `take`.
    Feed,
}

/// A key: its name, its role and its secret. No function prints it.
#[derive(Drop)]
pub struct Key {
    name: Vec<u8>,
    role: Role,
    secret: [u8; 32],
}

impl Model for Key {
    ghost Value = { KeyEntry };

    ghost view = { λ key. record { name = key.name.items; role = key.role; secret = key.secret } };
}

impl Key {
    /// A key of these parts.
    pub(super) fn of(name: Vec<u8>, role: Role, secret: [u8; 32]) -> Key
        ensures { result ≡ record { name = name.items; role = role; secret = secret } }
    {
        Key { name, role, secret }
    }

    /// Its name.
    pub fn name(&self) -> &[u8]
        ensures { result.now ≡ self.now.name }
    {
        &self.name
    }

    /// Its role.
    pub fn role(&self) -> Role
        ensures { result ≡ self.now.role }
    {
        self.role
    }

    /// Its secret.
    pub fn secret(&self) -> &[u8; 32]
        ensures { result.now ≡ self.now.secret }
    {
        &self.secret
    }
}
