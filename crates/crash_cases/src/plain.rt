// What the databases of a script hold behind some of its items, worked out of the items and of the last lines of their replies alone.

use crate::script::parts;
use std::alloc::{AllocError, Global};
use std::collections::BTreeMap;
use std::mem;

// So many sessions are counted, from 0.
const SESSIONS: usize = 33;

// A database, or what a set holds of one.
#[derive(Drop)]
enum Held {
    // It is down, in this word.
    Down(String),
    // It has no table.
    Bare,
    // The rows of its table by key.
    Rows(BTreeMap<u64, String>),
}

impl Held {
    fn copy(&self, alloc: Global) -> Result<Self, AllocError> {
        match self {
            Held::Down(word) => Ok(Held::Down(String::from_str(alloc, word.as_str())?)),
            Held::Bare => Ok(Held::Bare),
            Held::Rows(rows) => Ok(Held::Rows(rows.clone()?)),
        }
    }

    // What a SELECT shows of it.
    fn show(&self, out: &mut String) -> Result<(), AllocError> {
        match self {
            Held::Down(word) => writeln!(out, "Refused 5 NotOnline {word}"),
            Held::Bare => out.push_str("Refused 7 NoSuchTable\n"),
            Held::Rows(rows) => show_rows(rows, out),
        }
    }
}

fn show_rows(rows: &BTreeMap<u64, String>, out: &mut String) -> Result<(), AllocError> {
    for (key, value) in rows.iter() {
        writeln!(out, "{key}\t{value}")?;
    }
    let count = rows.len();
    writeln!(out, "({count} rows)")
}

// A set: where a restore of it ends, in decimal, and what it holds.
struct Set {
    last: String,
    held: Held,
}

impl Drop for Set {
    fn drop(self) {
        let Set { last: _, held: _ } = self;
    }
}

// A row that a transaction wrote, or that is gone by it.
#[derive(Drop)]
struct Write {
    key: u64,
    value: Option<String>,
}

impl Write {
    fn apply(&self, alloc: Global, rows: &mut BTreeMap<u64, String>) -> Result<(), AllocError> {
        match &self.value {
            Some(value) => {
                let value = String::from_str(alloc, value.as_str())?;
                rows.insert(self.key, value)?;
            }
            None => {
                rows.remove(&self.key);
            }
        }
        Ok(())
    }
}

// A session: the name of its database, and what its transaction wrote there.
struct Session {
    current: String,
    is_open: bool,
    writes: Vec<Write>,
}

impl Drop for Session {
    fn drop(self) {
        let Session {
            current: _,
            is_open: _,
            writes: _,
        } = self;
    }
}

/// The databases, the sets of the media by their paths, the media of the backups that run beside the sessions by the names of their databases, and the sessions.
pub struct Plain {
    alloc: Global,
    databases: BTreeMap<String, Held>,
    media: BTreeMap<String, Vec<Set>>,
    jobs: BTreeMap<String, String>,
    sessions: Vec<Session>,
    session: usize,
}

impl Drop for Plain {
    fn drop(self) {
        let Plain {
            alloc: _,
            databases: _,
            media: _,
            jobs: _,
            sessions: _,
            session: _,
        } = self;
    }
}

// What stands in a text between two others; nothing where these aren't there.
fn between<'a>(text: &'a str, front: &str, end: &str) -> &'a str {
    let Some((_, rest)) = text.split_once(front) else {
        return "";
    };
    match rest.split_once(end) {
        Some((inside, _)) => inside,
        None => "",
    }
}

fn key_in(words: &str, front: &str, end: &str) -> u64 {
    between(words, front, end).parse().unwrap_or(0)
}

// The text or the path of an item.
fn text_in(words: &str) -> &str {
    between(words, "'", "'")
}

// The position of the set that an item names.
fn position_in(words: &str) -> usize {
    between(words, "FILE = ", ",").parse().unwrap_or(1)
}

// The LSN behind the set of a backup that ended with this reply.
fn last_in(reply: &str) -> &str {
    between(reply, "last ", ".")
}

/// The database that an item names.
pub fn database_in(words: &str) -> &str {
    between(words, "DATABASE ", " ")
}

/// The medium that a backup made with this reply; none where it is no backup.
pub fn made_by<'a>(item: &'a str, reply: &str) -> Option<&'a str> {
    if item.starts_with("BACKUP ") && reply.starts_with("Set ") {
        return Some(text_in(item));
    }
    None
}

impl Plain {
    fn new(alloc: Global) -> Result<Self, AllocError> {
        let mut sessions = Vec::new(alloc);
        for _ in 0..SESSIONS {
            sessions.push(Session {
                current: String::new(alloc),
                is_open: false,
                writes: Vec::new(alloc),
            })?;
        }
        Ok(Plain {
            alloc,
            databases: BTreeMap::new(alloc),
            media: BTreeMap::new(alloc),
            jobs: BTreeMap::new(alloc),
            sessions,
            session: 1,
        })
    }

    /// Behind scripts that were run, and the front of one with so many items that are answered.
    pub fn behind(
        alloc: Global,
        before: &str,
        script: &str,
        answered: usize,
    ) -> Result<Self, AllocError> {
        let mut plain = Plain::new(alloc)?;
        let done = plain.take_both(before, script, answered);
        match done {
            Ok(()) => Ok(plain),
            Err(error) => {
                drop(plain);
                Err(error)
            }
        }
    }

    fn take_both(&mut self, before: &str, script: &str, answered: usize) -> Result<(), AllocError> {
        self.take_front(before, usize::MAX)?;
        self.take_front(script, answered)
    }

    fn take_front(&mut self, script: &str, answered: usize) -> Result<(), AllocError> {
        let mut left = answered;
        for line in script.lines() {
            let (item, reply) = parts(line);
            if reply.is_some() {
                if left == 0 {
                    break;
                }
                left -= 1;
            }
            self.take(item, reply.unwrap_or(""))?;
        }
        Ok(())
    }

    // One item more, whose reply ends with this line.
    fn take(&mut self, item: &str, reply: &str) -> Result<(), AllocError> {
        if reply == "(0 rows)" || reply.starts_with("Refused ") {
            return Ok(());
        }
        let (verb, words) = item.split_once(' ').unwrap_or((item, ""));
        match verb {
            "CREATE" => self.create(words),
            "DROP" => {
                self.databases.remove(between(words, "DATABASE ", ";"));
                Ok(())
            }
            "BACKUP" => self.back_up(database_in(words), text_in(words), reply),
            ":wait" => self.wait(last_in(reply)),
            "RESTORE" => self.restore(words),
            _ => self.take_in_session(verb, words),
        }
    }

    fn take_in_session(&mut self, verb: &str, words: &str) -> Result<(), AllocError> {
        match verb {
            ":session" => {
                self.session = words.parse().unwrap_or(0);
                Ok(())
            }
            ":run" => {
                self.end_run();
                Ok(())
            }
            "USE" => self.turn(words.strip_suffix(";").unwrap_or("")),
            "INSERT" => self.write(key_in(words, "(", ","), Some(text_in(words))),
            "UPDATE" => self.write(key_in(words, "k = ", ";"), Some(text_in(words))),
            "DELETE" => self.write(key_in(words, "k = ", ";"), None),
            "BEGIN" => {
                self.set_open(true);
                Ok(())
            }
            "COMMIT;" => self.commit(),
            "ROLLBACK;" => {
                self.roll_back();
                Ok(())
            }
            _ => Ok(()),
        }
    }

    fn create(&mut self, words: &str) -> Result<(), AllocError> {
        if words.starts_with("DATABASE ") {
            return self.set_database(database_in(words), Held::Bare);
        }
        let Some(session) = self.sessions.get(self.session) else {
            return Ok(());
        };
        let name = String::from_str(self.alloc, session.current.as_str())?;
        let rows = Held::Rows(BTreeMap::new(self.alloc));
        self.databases.insert(name, rows)?;
        Ok(())
    }

    fn set_database(&mut self, name: &str, held: Held) -> Result<(), AllocError> {
        let name = String::from_str(self.alloc, name)?;
        self.databases.insert(name, held)?;
        Ok(())
    }

    /// A database is down, in this word.
    pub fn bring_down(&mut self, name: &str, word: &str) -> Result<(), AllocError> {
        let word = String::from_str(self.alloc, word)?;
        self.set_database(name, Held::Down(word))
    }

    /// A medium is there, without a set where it wasn't there before.
    pub fn make_medium(&mut self, path: &str) -> Result<(), AllocError> {
        if self.media.contains_key(path) {
            return Ok(());
        }
        let path = String::from_str(self.alloc, path)?;
        self.media.insert(path, Vec::new(self.alloc))?;
        Ok(())
    }

    // A backup that starts, and ends if that is its reply.
    fn back_up(&mut self, name: &str, path: &str, reply: &str) -> Result<(), AllocError> {
        self.make_medium(path)?;
        if reply != "Job started." {
            return self.seal(name, path, last_in(reply));
        }
        let name = String::from_str(self.alloc, name)?;
        let path = String::from_str(self.alloc, path)?;
        self.jobs.insert(name, path)?;
        Ok(())
    }

    // The backup of the session's database ends.
    fn wait(&mut self, last: &str) -> Result<(), AllocError> {
        let Some(session) = self.sessions.get(self.session) else {
            return Ok(());
        };
        let name = String::from_str(self.alloc, session.current.as_str())?;
        match self.jobs.remove(name.as_str()) {
            Some(path) => self.seal(name.as_str(), path.as_str(), last),
            None => Ok(()),
        }
    }

    // A medium has one set more, of what a database holds now.
    fn seal(&mut self, name: &str, path: &str, last: &str) -> Result<(), AllocError> {
        let Some(held) = self.databases.get(name) else {
            return Ok(());
        };
        let held = held.copy(self.alloc)?;
        let last = String::from_str(self.alloc, last)?;
        if let Some(sets) = self.media.get_mut(path) {
            sets.push(Set { last, held })?;
        }
        Ok(())
    }

    fn restore(&mut self, words: &str) -> Result<(), AllocError> {
        let Some(sets) = self.media.get(text_in(words)) else {
            return Ok(());
        };
        let Some(set) = sets.get(position_in(words).saturating_sub(1)) else {
            return Ok(());
        };
        let held = set.held.copy(self.alloc)?;
        self.set_database(database_in(words), held)
    }

    fn turn(&mut self, name: &str) -> Result<(), AllocError> {
        let name = String::from_str(self.alloc, name)?;
        if let Some(session) = self.sessions.get_mut(self.session) {
            session.current = name;
        }
        Ok(())
    }

    // No session has a database or a transaction any more, and no backup runs beside them.
    fn end_run(&mut self) {
        self.session = 1;
        self.jobs.clear();
        for session in self.sessions.iter_mut() {
            session.current.clear();
            session.is_open = false;
            session.writes.clear();
        }
    }

    fn set_open(&mut self, is_open: bool) {
        if let Some(session) = self.sessions.get_mut(self.session) {
            session.is_open = is_open;
        }
    }

    // A write of the session's transaction, or of one of its own.
    fn write(&mut self, key: u64, value: Option<&str>) -> Result<(), AllocError> {
        let value = match value {
            Some(value) => Some(String::from_str(self.alloc, value)?),
            None => None,
        };
        let Some(session) = self.sessions.get_mut(self.session) else {
            return Ok(());
        };
        session.writes.push(Write { key, value })?;
        if session.is_open {
            return Ok(());
        }
        self.commit()
    }

    // What the session's transaction wrote; it has none any more.
    fn roll_back(&mut self) -> Vec<Write> {
        self.set_open(false);
        let none = Vec::new(self.alloc);
        match self.sessions.get_mut(self.session) {
            Some(session) => mem::replace(&mut session.writes, none),
            None => none,
        }
    }

    fn commit(&mut self) -> Result<(), AllocError> {
        let writes = self.roll_back();
        let Some(session) = self.sessions.get(self.session) else {
            return Ok(());
        };
        let Some(Held::Rows(rows)) = self.databases.get_mut(session.current.as_str()) else {
            return Ok(());
        };
        for write in &writes {
            write.apply(self.alloc, rows)?;
        }
        Ok(())
    }

    /// What a look shows: the replies to the USE and the SELECT in each of its lines, and those to the VERIFYONLY and the RESTORE before them.
    pub fn shown(&mut self, look: &str) -> Result<String, AllocError> {
        let mut text = String::new(self.alloc);
        let mut current = String::new(self.alloc);
        for line in look.lines() {
            if let Some((_, words)) = line.split_once("; RESTORE ") {
                self.show_set(text_in(words), position_in(words), &mut text)?;
                self.restore(words)?;
            }
            self.show_line(between(line, "USE ", ";"), &mut current, &mut text)?;
        }
        Ok(text)
    }

    // The replies to a VERIFYONLY and to a RESTORE of a set.
    fn show_set(&self, path: &str, position: usize, out: &mut String) -> Result<(), AllocError> {
        let Some(sets) = self.media.get(path) else {
            return out.push_str("Refused 30 MediaMissing\nRefused 30 MediaMissing\n");
        };
        if let Some(set) = sets.get(position.saturating_sub(1)) {
            let last = set.last.as_str();
            return writeln!(out, "Set {position} is valid.\nRecovered at {last}.");
        }
        let count = sets.len();
        writeln!(out, "Refused 32 NoSuchSet {position} {count}")?;
        writeln!(out, "Refused 32 NoSuchSet {position} {count}")
    }

    // The replies to a USE of this name, behind which it is the current one if it is there, and to a SELECT.
    fn show_line(
        &self,
        name: &str,
        current: &mut String,
        out: &mut String,
    ) -> Result<(), AllocError> {
        if self.databases.contains_key(name) {
            *current = String::from_str(self.alloc, name)?;
            out.push_str("Done.\n")?;
        } else {
            out.push_str("Refused 3 NoSuchDatabase\n")?;
        }
        match self.databases.get(current.as_str()) {
            Some(held) => held.show(out),
            None => out.push_str("Refused 3 NoSuchDatabase\n"),
        }
    }
}
