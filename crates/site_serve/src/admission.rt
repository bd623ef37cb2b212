//! Authenticates connections by their keys.

use super::channel::Credential;
use super::errors::Errors;
use super::jobs::Work;
use byte_ends::Drain;
use key_file::{Key, KeyFault};
use key_files::KeyReader;
use sealed_line::KeyId;
use sealed_link::{Admitted, admit, refusal_line};
use std::alloc::Global;
use std::sync::Wait;

/// What connections are authenticated with, as server and as client: the reader of the file of keys, the name of that
/// file, if one is given, and the number of the site.
#[derive(Drop)]
pub struct Admission<'a, T: KeyReader> {
    pub reader: &'a T,
    pub keys: Option<&'a str>,
    pub site: u16,
}

impl<T: KeyReader> Admission<'_, T> {
    /// Admits a connection if its credential is a key of the file. The file is read for each connection, so that a
    /// revoked key admits nobody. If the file can't be read, that is reported, and the connection is refused.
    pub fn answer<R: Wait, E: Drain>(
        &self,
        rt: &R,
        alloc: Global,
        credential: Credential,
        errors: &Errors<E>,
    ) -> Work {
        match self.admitted(alloc, credential) {
            Ok(Some(admitted)) => return Work::Admitted(admitted),
            Ok(None) => {}
            Err(fault) => errors.report_key_fault(rt, alloc, fault, self.keys.unwrap_or("")),
        }
        Work::Rejected(refusal_line(alloc).unwrap_or(Vec::new(alloc)))
    }

    /// The present role of the key with an ID; `None` if the file no longer has that key, or can't be read, which is
    /// reported.
    pub fn role_now<R: Wait, E: Drain>(
        &self,
        rt: &R,
        alloc: Global,
        id: KeyId,
        errors: &Errors<E>,
    ) -> Work {
        let name = self.keys.unwrap_or("");
        let role = match self.reader.keys(name) {
            Ok(keys) => keys.letting_in(&id).map(Key::role),
            Err(fault) => {
                errors.report_key_fault(rt, alloc, fault, name);
                None
            }
        };
        Work::KeyLookedAt(role)
    }

    /// The secret of the first key of this name.
    pub fn secret(&self, name: &str) -> Result<[u8; 32], KeyFault> {
        let keys = self.reader.keys(self.keys.unwrap_or(""))?;
        keys.secret_of(name.as_bytes())
    }

    /// The admitted connection, if the credential is a key of the file.
    fn admitted(
        &self,
        alloc: Global,
        credential: Credential,
    ) -> Result<Option<Admitted>, KeyFault> {
        let (Credential::Key(greeting), Some(name)) = (credential, self.keys) else {
            return Ok(None);
        };
        let keys = self.reader.keys(name)?;
        let nonce = self.reader.nonce()?;
        match admit(alloc, &keys, &greeting, self.site, nonce) {
            Ok(admitted) => Ok(admitted),
            Err(_) => Err(KeyFault::NoMemory),
        }
    }
}
