ghost use Rattle.std.specs.Prelude.{◌≡◌, ◌<◌, ◌≤◌, ◌↔◌, ℕ, List, length, IsTrue, IfOk, IfErr};
ghost use Rattle.std.specs.String.{string_bytes, string_len};
ghost use Rattle.bk_ids.specs.Name.{IsSameName, IsNameError};

use std::alloc::{AllocError, Global};
use std::marker::Model;
use thiserror::Error;

/// The greatest length of a name, in bytes.
pub const NAME_BYTES: usize = 64;

/// Why a text became no name.
#[derive(Clone, Copy, Debug, PartialEq, Eq, Error)]
pub enum NameError {
    /// It has more than 64 bytes.
    #[error("a name of {bytes} bytes is too long")]
    TooLong {
        /// How many it has.
        bytes: usize,
    },
    /// Memory was wanting.
    #[error("out of memory")]
    NoMemory,
}

/// The name of a database, a filegroup, a file, a table or a mark: 1 to 64 bytes, in the spelling that it
/// was first given. Contracts see its bytes.
#[derive(Debug)]
pub struct Name {
    text: String,
}

impl Drop for Name {
    fn drop(self) {
        let Name { text: _ } = self;
    }
}

impl Model for Name {
    ghost Value = { List ℕ };

    ghost view = { λ name. string_bytes name.text };

    ghost invariant = { λ name. (0 < length (string_bytes name.text)) × (length (string_bytes name.text) ≤ 64) };
}

impl Name {
    /// The name that a text spells, where it has at most 64 bytes.
    pub fn new(alloc: Global, text: &str) -> Result<Self, NameError>
        requires { 0 < length text.now }
        ensures name { IfOk result (λ name. name ≡ text.now) }
        ensures within { IfOk result (λ name. length text.now ≤ 64) }
        ensures error { IfErr result (IsNameError text.now) }
    {
        if text.len() > NAME_BYTES {
            return Err(NameError::TooLong { bytes: text.len() });
        }
        let text = String::from_str(alloc, text).map_err(|_| NameError::NoMemory)?;
        Ok(Name { text })
    }

    /// A name of its own with the same spelling.
    pub fn copy(&self, alloc: Global) -> Result<Self, AllocError>
        ensures { IfOk result (λ copy. copy ≡ self.now) }
    {
        let text = String::from_str(alloc, &self.text)?;
        Ok(Name { text })
    }

    /// Its spelling.
    pub fn as_str(&self) -> &str
        ensures spelling { result.now ≡ self.now }
        ensures some { 0 < length self.now }
        ensures short { length self.now ≤ 64 }
    {
        self.text.as_str()
    }

    /// Whether two names are the same: equal once ASCII letters are lowered.
    pub fn same(&self, other: &Name) -> bool
        ensures { IsTrue result ↔ IsSameName self.now other.now }
    {
        self.text.as_str().eq_ignore_ascii_case(&other.text)
    }
}
