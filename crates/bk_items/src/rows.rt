//! The statements on the rows of a table.

use bk_ids::Text;

/// What a statement does with the rows of its table.
#[derive(Debug, Drop)]
pub enum RowStatement {
    /// `INSERT INTO .. VALUES (key, value)`
    Insert { key: u64, value: Text },
    /// `UPDATE .. SET v = value WHERE k = key`
    Update { key: u64, value: Text },
    /// `DELETE FROM .. WHERE k = key`
    Delete { key: u64 },
    /// `SELECT * FROM ..`, of one key or of all
    Select { key: Option<u64> },
    /// `BULK INSERT .. ROWS first, count, value`
    BulkInsert { first: u64, count: u64, value: Text },
}
