use bk_ids::{Place, Value};

/// A committed row of a database, with the cell in which it lies.
#[derive(Debug)]
pub struct PlacedRow {
    /// The number of its table.
    pub table: u32,
    /// At most 9223372036854775807.
    pub key: u64,
    pub value: Value,
    /// Its cell.
    pub place: Place,
}

impl Drop for PlacedRow {
    fn drop(self) {
        let PlacedRow {
            table: _,
            key: _,
            value: _,
            place: _,
        } = self;
    }
}
