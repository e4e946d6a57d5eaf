//! What a whole restore comes to.

use bk_ids::{Guid, Lsn, Name};
use bk_world::{Header, RestoreRow, Rule};

/// What a whole restore comes to.
#[derive(Drop)]
pub enum RestorePlan {
    /// It is refused by this rule, the first that it breaks, and does nothing.
    Refused {
        rule: Rule,
    },
    /// The set takes the place of the database of this name and brings it up on this branch; the record of this number, the last
    /// of its recovery, names the branch. The header is the set's as it is restored: with its files at the paths to which they are moved.
    /// Behind that the row comes to restorehistory.
    BringsUp {
        name: Name,
        branch: Guid,
        last: Lsn,
        header: Header,
        row: RestoreRow,
    },
}
