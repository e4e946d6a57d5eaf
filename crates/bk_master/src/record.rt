use bk_ids::{Guid, Sequence, Text};

/// A database of an instance.
#[derive(Clone, Copy, Debug, PartialEq, Eq)]
pub struct Entry {
    /// The number of its store.
    pub store: u32,
    /// Whether its pages and its log stand in the store's files; else the store's note alone tells of it, as while it is being restored.
    pub is_stored: bool,
}

/// A store whose files are being made or removed.
#[derive(Debug)]
pub struct Unfinished {
    /// Its number.
    pub store: u32,
    /// The paths of its data files, each of 1 to 100 bytes.
    pub paths: Sequence<Text>,
}

impl Drop for Unfinished {
    fn drop(self) {
        let Unfinished { store: _, paths: _ } = self;
    }
}

/// What an instance keeps of itself beside its databases.
#[derive(Debug)]
pub struct Own {
    /// The instance's number.
    pub number: u64,
    /// The low number of the next GUID that isn't reserved yet.
    pub counter: u64,
    /// The path of the medium that is being made, if one is: 1 to 100 bytes.
    pub making: Option<Text>,
    /// The set whose extents and log are being staged in a file of their own, if one is.
    pub staging: Option<Guid>,
    /// The sets that are being copied beside the sessions, each into a file of its own: at most 16.
    pub copying: Sequence<Guid>,
}

impl Drop for Own {
    fn drop(self) {
        let Own {
            number: _,
            counter: _,
            making: _,
            staging: _,
            copying: _,
        } = self;
    }
}

/// What an instance keeps of itself.
#[derive(Debug)]
pub struct Record {
    /// What isn't of its databases.
    pub own: Own,
    /// The number of the next store that is made.
    pub next: u32,
    /// The databases, in their order: at most 16.
    pub databases: Sequence<Entry>,
    /// The stores that are being made or removed: at most two, each of at most 16 data files.
    pub unfinished: Sequence<Unfinished>,
}

impl Drop for Record {
    fn drop(self) {
        let Record {
            own: _,
            next: _,
            databases: _,
            unfinished: _,
        } = self;
    }
}
