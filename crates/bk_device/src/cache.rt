// The files of a device in memory, by name.
ghost use Rattle.std.specs.Prelude.{◌≡◌, ◌≤◌, ◌<◌, [], None, Some, length, take, option_map, position, IfOk, IsSomeAnd, if◌then◌else◌, MatchOption, OnOk, OnErr};
ghost use Rattle.std.specs.Str.{bytes_eq};
ghost use Rattle.bk_device.specs.Calls.{contents, written};
ghost use Rattle.bk_device.specs.Disk.{replaced};
ghost use Rattle.bk_device.specs.Held.{name_of, place_of, begin_files, durable_files, current_files, flipped};

use crate::held::Held;
use std::alloc::{AllocError, Global};

#[derive(Drop)]
pub struct Cache {
    pub alloc: Global,
    pub held: Vec<Held>,
}

impl Cache {
    pub fn new(alloc: Global) -> Cache
        ensures { result.held.items ≡ [] }
    {
        Cache {
            alloc,
            held: Vec::new(alloc),
        }
    }

    // The place of the file of this name.
    fn find(&self, name: &str) -> Option<usize>
        ensures { result ≡ position (λ held. bytes_eq (name_of held) name.now) self.now.held.items }
    {
        self.held.iter().position(|held| held.name.as_str() == name)
    }

    // The place of the file of this name, made where there is none.
    fn place(&mut self, name: &str) -> Result<usize, AllocError>
        ensures place { IfOk result (λ i. i ≡ place_of name_of self.new.held.items name.now) }
        ensures inside { IfOk result (λ i. i < length self.new.held.items) }
        ensures current { current_files self.new.held.items ≡ current_files self.old.held.items }
        ensures durable { durable_files self.new.held.items ≡ durable_files self.old.held.items }
        ensures begin { begin_files self.new.held.items ≡ begin_files self.old.held.items }
    {
        if let Some(i) = self.find(name) {
            return Ok(i);
        }
        let i = self.held.len();
        let name = String::from_str(self.alloc, name)?;
        self.held.push(Held::new(name))?;
        Ok(i)
    }

    // What a read gives.
    pub fn content(&self, name: &str) -> Option<&[u8]>
        ensures { MatchOption result (current_files self.now.held.items name.now ≡ None) (λ content. current_files self.now.held.items name.now ≡ Some content.now) }
    {
        match self.find(name) {
            Some(i) => self.held[i].content(),
            None => None,
        }
    }

    pub fn write(&mut self, name: &str, at: usize, bytes: &[u8]) -> Result<(), AllocError>
        requires { at ≤ length (contents (current_files self.old.held.items name.now)) }
        ensures ok { OnOk result (current_files self.new.held.items ≡ replaced (current_files self.old.held.items) name.now (Some (written (contents (current_files self.old.held.items name.now)) at bytes.now))) }
        ensures err { OnErr result (current_files self.new.held.items ≡ current_files self.old.held.items) }
        ensures durable { durable_files self.new.held.items ≡ durable_files self.old.held.items }
        ensures begin { begin_files self.new.held.items ≡ begin_files self.old.held.items }
    {
        let i = self.place(name)?;
        let alloc = self.alloc;
        self.held[i].write(alloc, at, bytes)
    }

    pub fn cut(&mut self, name: &str, len: usize) -> Result<(), AllocError>
        ensures ok { OnOk result (current_files self.new.held.items ≡ replaced (current_files self.old.held.items) name.now (option_map (take len) (current_files self.old.held.items name.now))) }
        ensures err { OnErr result (current_files self.new.held.items ≡ current_files self.old.held.items) }
        ensures durable { durable_files self.new.held.items ≡ durable_files self.old.held.items }
        ensures begin { begin_files self.new.held.items ≡ begin_files self.old.held.items }
    {
        let i = self.place(name)?;
        let alloc = self.alloc;
        self.held[i].cut(alloc, len)
    }

    pub fn remove(&mut self, name: &str)
        ensures current { current_files self.new.held.items ≡ replaced (current_files self.old.held.items) name.now None }
        ensures durable { durable_files self.new.held.items ≡ durable_files self.old.held.items }
        ensures begin { begin_files self.new.held.items ≡ begin_files self.old.held.items }
    {
        if let Some(i) = self.find(name) {
            self.held[i].remove();
        }
    }

    pub fn sync(&mut self, name: &str)
        ensures current { current_files self.new.held.items ≡ current_files self.old.held.items }
        ensures durable { durable_files self.new.held.items ≡ replaced (durable_files self.old.held.items) name.now (current_files self.old.held.items name.now) }
        ensures begin { begin_files self.new.held.items ≡ begin_files self.old.held.items }
    {
        if let Some(i) = self.find(name) {
            self.held[i].sync();
        }
    }

    // The byte of this file at this offset is another.
    pub fn damage(&mut self, name: &str, at: usize)
        requires { IsSomeAnd (current_files self.old.held.items name.now) (λ content. at < length content) }
        ensures current { current_files self.new.held.items ≡ replaced (current_files self.old.held.items) name.now (option_map (flipped at) (current_files self.old.held.items name.now)) }
    {
        if let Some(i) = self.find(name) {
            self.held[i].damage(at);
        }
    }

    // What a read gives is what was there from the beginning.
    pub fn keep(&mut self)
        ensures current { current_files self.new.held.items ≡ current_files self.old.held.items }
        ensures durable { durable_files self.new.held.items ≡ current_files self.old.held.items }
        ensures begin { begin_files self.new.held.items ≡ current_files self.old.held.items }
    {
        for file in self.held.iter_mut() {
            file.keep();
        }
    }

    // What was last synced is what was there from the beginning.
    pub fn forget(&mut self)
        ensures current { current_files self.new.held.items ≡ durable_files self.old.held.items }
        ensures durable { durable_files self.new.held.items ≡ durable_files self.old.held.items }
        ensures begin { begin_files self.new.held.items ≡ durable_files self.old.held.items }
    {
        for file in self.held.iter_mut() {
            file.forget();
        }
    }

    // What a read gives, or what was last synced, is what was there from the beginning.
    pub fn restart(&mut self, keep: bool)
        ensures current { current_files self.new.held.items ≡ (if keep then current_files self.old.held.items else durable_files self.old.held.items) }
        ensures durable { durable_files self.new.held.items ≡ current_files self.new.held.items }
        ensures begin { begin_files self.new.held.items ≡ current_files self.new.held.items }
    {
        if keep {
            self.keep();
            return;
        }
        self.forget();
    }

    // Files that held from the beginning what a read of these gives.
    pub fn copy(&self) -> Result<Cache, AllocError>
        ensures current { IfOk result (λ cache. current_files cache.held.items ≡ current_files self.now.held.items) }
        ensures durable { IfOk result (λ cache. durable_files cache.held.items ≡ current_files self.now.held.items) }
        ensures begin { IfOk result (λ cache. begin_files cache.held.items ≡ current_files self.now.held.items) }
    {
        let mut held = Vec::new(self.alloc);
        for file in &self.held {
            held.push(file.copy(self.alloc)?)?;
        }
        Ok(Cache {
            alloc: self.alloc,
            held,
        })
    }
}
