use bk_ids::{Lsn, Sequence, Text};

/// A data file of a database.
#[derive(Debug)]
pub struct DataFile {
    /// Its path, 1 to 100 bytes.
    pub path: Text,
    /// How many pages it has, header pages included.
    pub pages: u32,
}

impl Drop for DataFile {
    fn drop(self) {
        let DataFile { path: _, pages: _ } = self;
    }
}

/// What a database's note holds before that of the layer above.
#[derive(Debug)]
pub struct Facts {
    /// The number of the latest checkpoint.
    pub checkpoint: Lsn,
    /// The data files, numbered 1, 2, .. in their order.
    pub files: Sequence<DataFile>,
}

impl Drop for Facts {
    fn drop(self) {
        let Facts {
            checkpoint: _,
            files: _,
        } = self;
    }
}
