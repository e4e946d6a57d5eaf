ghost use Rattle.std.specs.Prelude.{◌≡◌, ◌≤◌, ℕ, List, length, IfOk};
ghost use Rattle.std.specs.String.{string_bytes};

use std::alloc::{AllocError, Global};
use std::marker::Model;

/// The greatest length of a row's value, in bytes.
pub const VALUE_BYTES: usize = 112;

/// The value of a row: a text in UTF-8 of at most 112 bytes. Contracts see its bytes.
#[derive(Debug)]
pub struct Value {
    text: String,
}

impl Drop for Value {
    fn drop(self) {
        let Value { text: _ } = self;
    }
}

impl Model for Value {
    ghost Value = { List ℕ };

    ghost view = { λ value. string_bytes value.text };

    ghost invariant = { λ value. length (string_bytes value.text) ≤ 112 };
}

impl Value {
    /// The value of this text, which has at most 112 bytes.
    pub fn new(alloc: Global, text: &str) -> Result<Self, AllocError>
        requires { length text.now ≤ 112 }
        ensures { IfOk result (λ value. value ≡ text.now) }
    {
        let text = String::from_str(alloc, text)?;
        Ok(Value { text })
    }

    /// A value of its own with the same bytes.
    pub fn copy(&self, alloc: Global) -> Result<Self, AllocError>
        ensures { IfOk result (λ copy. copy ≡ self.now) }
    {
        let text = String::from_str(alloc, &self.text)?;
        Ok(Value { text })
    }

    /// Its bytes as a string slice.
    pub fn as_str(&self) -> &str
        ensures bytes { result.now ≡ self.now }
        ensures short { length self.now ≤ 112 }
    {
        self.text.as_str()
    }
}
