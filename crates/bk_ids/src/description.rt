ghost use Rattle.std.specs.Prelude.{◌≡◌, ◌<◌, ◌≤◌, ℕ, List, length, IfOk};
ghost use Rattle.std.specs.String.{string_bytes};

use std::alloc::{AllocError, Global};
use std::marker::Model;

/// The greatest length of a mark's description, in bytes.
pub const DESCRIPTION_BYTES: usize = 65_535;

/// The description of a mark: a text in UTF-8 of 1 to 65,535 bytes. Contracts see its bytes.
#[derive(Debug)]
pub struct Description {
    text: String,
}

impl Drop for Description {
    fn drop(self) {
        let Description { text: _ } = self;
    }
}

impl Model for Description {
    ghost Value = { List ℕ };

    ghost view = { λ description. string_bytes description.text };

    ghost invariant = { λ description. (0 < length (string_bytes description.text)) × (length (string_bytes description.text) ≤ 65535) };
}

impl Description {
    /// The description that this text is, which has 1 to 65,535 bytes.
    pub fn new(alloc: Global, text: &str) -> Result<Self, AllocError>
        requires some { 0 < length text.now }
        requires short { length text.now ≤ 65535 }
        ensures { IfOk result (λ description. description ≡ text.now) }
    {
        let text = String::from_str(alloc, text)?;
        Ok(Description { text })
    }

    /// A description of its own with the same bytes.
    pub fn copy(&self, alloc: Global) -> Result<Self, AllocError>
        ensures { IfOk result (λ copy. copy ≡ self.now) }
    {
        let text = String::from_str(alloc, &self.text)?;
        Ok(Description { text })
    }

    /// Its bytes as a string slice.
    pub fn as_str(&self) -> &str
        ensures bytes { result.now ≡ self.now }
        ensures some { 0 < length self.now }
        ensures short { length self.now ≤ 65535 }
    {
        self.text.as_str()
    }
}
