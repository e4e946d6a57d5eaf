// One file of a device in memory: what it held when the device began, when it was last synced, and what it holds now.
ghost use Rattle.std.specs.Prelude.{◌≡◌, ◌≤◌, ◌<◌, ◌+◌, None, Some, length, take, option_map, string_bytes, vec_len, MatchOption, IsSomeAnd, IfOk, OnOk, OnErr};
ghost use Rattle.bk_device.specs.Calls.{contents, written};
ghost use Rattle.bk_device.specs.Held.{begin_of, durable_of, current_of, flipped};

use std::alloc::{AllocError, Global};
use std::mem;

// A content, over one that came before it.
#[derive(Drop)]
pub enum Version {
    Same,
    Absent,
    Bytes(Vec<u8>),
}

pub struct Held {
    pub name: String,
    pub begin: Option<Vec<u8>>,
    pub durable: Version,
    pub current: Version,
}

impl Drop for Held {
    fn drop(self) {
        let Held {
            name: _,
            begin: _,
            durable: _,
            current: _,
        } = self;
    }
}

impl Held {
    // No file was there.
    pub fn new(name: String) -> Held
        ensures name { string_bytes result.name ≡ string_bytes name }
        ensures begin { begin_of result ≡ None }
        ensures durable { durable_of result ≡ None }
        ensures current { current_of result ≡ None }
    {
        Held {
            name,
            begin: None,
            durable: Version::Same,
            current: Version::Same,
        }
    }

    // What a read gives.
    pub fn content(&self) -> Option<&[u8]>
        ensures { MatchOption result (current_of self.now ≡ None) (λ content. current_of self.now ≡ Some content.now) }
    {
        match &self.current {
            Version::Bytes(content) => Some(content.as_slice()),
            Version::Absent => None,
            Version::Same => match &self.durable {
                Version::Bytes(content) => Some(content.as_slice()),
                Version::Absent => None,
                Version::Same => match &self.begin {
                    Some(content) => Some(content.as_slice()),
                    None => None,
                },
            },
        }
    }

    pub fn write(&mut self, alloc: Global, at: usize, bytes: &[u8]) -> Result<(), AllocError>
        requires { at ≤ length (contents (current_of self.old)) }
        ensures ok { OnOk result (current_of self.new ≡ Some (written (contents (current_of self.old)) at bytes.now)) }
        ensures err { OnErr result (current_of self.new ≡ current_of self.old) }
        ensures durable { durable_of self.new ≡ durable_of self.old }
        ensures begin { begin_of self.new ≡ begin_of self.old }
        ensures name { self.new.name ≡ self.old.name }
    {
        if let Version::Bytes(content) = &mut self.current {
            return write_into(content, at, bytes);
        }
        let mut content = match self.content() {
            Some(content) => Vec::from_slice(alloc, content)?,
            None => Vec::new(alloc),
        };
        write_into(&mut content, at, bytes)?;
        self.current = Version::Bytes(content);
        Ok(())
    }

    pub fn cut(&mut self, alloc: Global, len: usize) -> Result<(), AllocError>
        ensures ok { OnOk result (current_of self.new ≡ option_map (take len) (current_of self.old)) }
        ensures err { OnErr result (current_of self.new ≡ current_of self.old) }
        ensures durable { durable_of self.new ≡ durable_of self.old }
        ensures begin { begin_of self.new ≡ begin_of self.old }
        ensures name { self.new.name ≡ self.old.name }
    {
        if let Version::Bytes(content) = &mut self.current {
            content.truncate(len);
            return Ok(());
        }
        let front = match self.content() {
            Some(content) => Vec::from_slice(alloc, &content[..len.min(content.len())])?,
            None => return Ok(()),
        };
        self.current = Version::Bytes(front);
        Ok(())
    }

    pub fn remove(&mut self)
        ensures current { current_of self.new ≡ None }
        ensures durable { durable_of self.new ≡ durable_of self.old }
        ensures begin { begin_of self.new ≡ begin_of self.old }
        ensures name { self.new.name ≡ self.old.name }
    {
        self.current = Version::Absent;
    }

    pub fn sync(&mut self)
        ensures current { current_of self.new ≡ current_of self.old }
        ensures durable { durable_of self.new ≡ current_of self.old }
        ensures begin { begin_of self.new ≡ begin_of self.old }
        ensures name { self.new.name ≡ self.old.name }
    {
        match mem::replace(&mut self.current, Version::Same) {
            Version::Same => {}
            current => self.durable = current,
        }
    }

    // The byte at this offset is another.
    pub fn damage(&mut self, at: usize)
        requires { IsSomeAnd (current_of self.old) (λ content. at < length content) }
        ensures current { current_of self.new ≡ option_map (flipped at) (current_of self.old) }
        ensures name { self.new.name ≡ self.old.name }
    {
        match &mut self.current {
            Version::Bytes(content) => flip(content, at),
            Version::Absent => {}
            Version::Same => match &mut self.durable {
                Version::Bytes(content) => flip(content, at),
                Version::Absent => {}
                Version::Same => {
                    if let Some(content) = &mut self.begin {
                        flip(content, at);
                    }
                }
            },
        }
    }

    // What a read gives is what was there from the beginning.
    pub fn keep(&mut self)
        ensures current { current_of self.new ≡ current_of self.old }
        ensures durable { durable_of self.new ≡ current_of self.old }
        ensures begin { begin_of self.new ≡ current_of self.old }
        ensures name { self.new.name ≡ self.old.name }
    {
        self.sync();
        match mem::replace(&mut self.durable, Version::Same) {
            Version::Bytes(content) => self.begin = Some(content),
            Version::Absent => self.begin = None,
            Version::Same => {}
        }
    }

    // What was last synced is what was there from the beginning.
    pub fn forget(&mut self)
        ensures current { current_of self.new ≡ durable_of self.old }
        ensures durable { durable_of self.new ≡ durable_of self.old }
        ensures begin { begin_of self.new ≡ durable_of self.old }
        ensures name { self.new.name ≡ self.old.name }
    {
        self.current = Version::Same;
        self.keep();
    }

    // A file that held from the beginning what a read of this one gives.
    pub fn copy(&self, alloc: Global) -> Result<Held, AllocError>
        ensures current { IfOk result (λ held. current_of held ≡ current_of self.now) }
        ensures durable { IfOk result (λ held. durable_of held ≡ current_of self.now) }
        ensures begin { IfOk result (λ held. begin_of held ≡ current_of self.now) }
        ensures name { IfOk result (λ held. string_bytes held.name ≡ string_bytes self.now.name) }
    {
        let name = String::from_str(alloc, self.name.as_str())?;
        match self.content() {
            Some(content) => Ok(Held {
                name,
                begin: Some(Vec::from_slice(alloc, content)?),
                durable: Version::Same,
                current: Version::Same,
            }),
            None => Ok(Held::new(name)),
        }
    }
}

fn flip(content: &mut Vec<u8>, at: usize)
    requires { at < vec_len content.old }
    ensures { content.new.items ≡ flipped at content.old.items }
{
    content[at] = u8::MAX - content[at];
}

fn write_into(content: &mut Vec<u8>, at: usize, bytes: &[u8]) -> Result<(), AllocError>
    requires { at ≤ vec_len content.old }
    ensures ok { OnOk result (content.new.items ≡ written content.old.items at bytes.now) }
    ensures err { OnErr result (content.new.items ≡ content.old.items) }
{
    let inside = (content.len() - at).min(bytes.len());
    content.extend_from_slice(&bytes[inside..])?;
    content[at..at + inside].copy_from_slice(&bytes[..inside]);
    Ok(())
}
