ghost use Rattle.std.specs.Prelude.{◌≡◌, ℕ, List, IfOk};
ghost use Rattle.std.specs.String.{string_bytes};

use std::alloc::{AllocError, Global};
use std::marker::Model;

/// A text in UTF-8 of any length, such as a path. Contracts see its bytes.
#[derive(Debug)]
pub struct Text {
    inner: String,
}

impl Drop for Text {
    fn drop(self) {
        let Text { inner: _ } = self;
    }
}

impl Model for Text {
    ghost Value = { List ℕ };

    ghost view = { λ text. string_bytes text.inner };
}

impl Text {
    /// The text of this string.
    pub fn new(inner: String) -> Self
        ensures { result ≡ string_bytes inner }
    {
        Text { inner }
    }

    /// A text of its own with the same bytes.
    pub fn copy(&self, alloc: Global) -> Result<Self, AllocError>
        ensures { IfOk result (λ copy. copy ≡ self.now) }
    {
        Ok(Text {
            inner: String::from_str(alloc, &self.inner)?,
        })
    }

    /// Its bytes as a string slice.
    pub fn as_str(&self) -> &str
        ensures { result.now ≡ self.now }
    {
        self.inner.as_str()
    }
}
