// Names under which something may be pending.
ghost use Rattle.std.specs.Prelude.{◌≡◌, ◌≢◌, ◌<◌, ◌++◌, ◌∷◌, [], List, ℕ, Some, false, length, position, slice_get, string_bytes, IfOk, OnOk, OnErr};
ghost use Rattle.std.specs.Str.{bytes_eq};
ghost use Rattle.bk_settling.specs.Noted.{names_in, IsNoted};

use std::alloc::{AllocError, Global};

// Names, the last one that was noted at the end.
pub struct Noted {
    pub alloc: Global,
    pub names: Vec<String>,
    // A name found no memory.
    pub lost: bool,
}

impl Drop for Noted {
    fn drop(self) {
        let Noted {
            alloc: _,
            names: _,
            lost: _,
        } = self;
    }
}

impl Noted {
    pub fn new(alloc: Global) -> Noted
        ensures none { result.names.items ≡ [] }
        ensures whole { result.lost ≡ false }
    {
        Noted {
            alloc,
            names: Vec::new(alloc),
            lost: false,
        }
    }

    // The place of a name.
    fn find(&self, name: &str) -> Option<usize>
        ensures { result ≡ position (λ noted. bytes_eq (string_bytes noted) name.now) self.now.names.items }
    {
        self.names.iter().position(|noted| noted.as_str() == name)
    }

    // Adds a name at the end.
    fn add(&mut self, name: &str) -> Result<(), AllocError>
        ensures added { OnOk result (names_in self.new ≡ names_in self.old ++ name.now ∷ []) }
        ensures same { OnErr result (names_in self.new ≡ names_in self.old) }
        ensures lost { self.new.lost ≡ self.old.lost }
    {
        let name = String::from_str(self.alloc, name)?;
        self.names.push(name)?;
        Ok(())
    }

    // Notes a name. Where there is no memory for it, that one was lost is known from then on.
    pub fn note(&mut self, name: &str)
        ensures noted { self.new.lost ≡ false → IsNoted self.new name.now }
        ensures kept { (other : List ℕ) → IsNoted self.old other → IsNoted self.new other }
        ensures whole { self.new.lost ≡ false → self.old.lost ≡ false }
    {
        if self.find(name).is_some() {
            return;
        }
        if self.add(name).is_err() {
            self.lost = true;
        }
    }

    // The name at a place.
    pub fn name_at(&self, at: usize) -> Result<String, AllocError>
        requires { at < length self.now.names.items }
        ensures { IfOk result (λ name. slice_get (names_in self.now) at ≡ Some (string_bytes name)) }
    {
        String::from_str(self.alloc, self.names[at].as_str())
    }

    // Takes out the name at a place.
    pub fn drop_at(&mut self, at: usize)
        requires { at < length self.old.names.items }
        ensures kept { (name other : List ℕ) → slice_get (names_in self.old) at ≡ Some name → other ≢ name → IsNoted self.old other → IsNoted self.new other }
        ensures fewer { length self.new.names.items < length self.old.names.items }
        ensures lost { self.new.lost ≡ self.old.lost }
    {
        self.names.remove(at);
    }

    // Takes out a name, if it is noted.
    pub fn take_out(&mut self, name: &str)
        ensures kept { (other : List ℕ) → other ≢ name.now → IsNoted self.old other → IsNoted self.new other }
        ensures lost { self.new.lost ≡ self.old.lost }
    {
        if let Some(at) = self.find(name) {
            self.drop_at(at);
        }
    }
}
