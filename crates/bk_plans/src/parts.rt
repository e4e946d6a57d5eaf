//! What a statement comes to.

use bk_acts::StoredAct;
use bk_ids::{Name, Text};
use bk_machine::{HistoryRow, Job};
use bk_world::{Header, Reply, Rule};

/// A part of a statement: an act of the machine.
#[derive(Drop)]
pub enum Part {
    /// An act that outlasts the run.
    Stored(StoredAct),
    /// A medium is made at a path of 1 to 100 bytes where none is, without sets.
    MediumMade { path: Text },
    /// The GUID of a set is drawn that comes behind those on a medium.
    SetDrawn,
    /// A set with this header is sealed behind those on the medium at a path.
    SetSealed { path: Text, header: Header },
    /// A row comes to its table of msdb.
    Noted { row: HistoryRow },
    /// The backup of the database of this name starts: nothing of it is copied yet.
    JobBegun { name: Name, job: Job },
    /// So many more of the extents are copied that are left to the backup of the database of this name.
    JobStepped { name: Name, count: u64 },
}

/// What a statement comes to.
#[derive(Drop)]
pub enum Plan {
    /// It is refused by this rule, the first that it breaks, and does nothing.
    Refused {
        rule: Rule,
    },
    /// It does nothing, and answers.
    Answered {
        reply: Reply,
    },
    /// The current database becomes the one of this name, or there is none; the reply is that it is done.
    Turned {
        name: Option<Text>,
    },
    /// The session of this number, from 1 to 32, is the current one from now on; nothing is replied.
    Seated {
        session: u8,
    },
    /// Its parts are done one after the other, and then it replies.
    Parts {
        parts: Vec<Part>,
        reply: Reply,
    },
    /// Its parts are done one after the other; then the current session's next backup only starts, or it doesn't any more, and then it
    /// replies.
    Readied {
        parts: Vec<Part>,
        starts: bool,
        reply: Reply,
    },
}
