use bk_ids::{Lsn, Name, Rec, Sequence};
use bk_world::{Creation, Header, Open};

/// An act of the machine that is done to a database. Times are milliseconds since 1970-01-01 00:00:00 UTC. A database is the first whose
/// name is the same in any case of ASCII letters.
#[derive(Drop)]
pub enum StoredAct {
    /// A database was made, with its first log record.
    Created {
        creation: Creation,
    },
    /// A database was dropped.
    Dropped {
        name: Name,
    },
    /// A database said these log records at its end, and then these transactions are open in it.
    Logged {
        name: Name,
        transactions: Sequence<Open>,
        records: Sequence<Rec>,
    },
    /// A database marked a checkpoint at its end, behind which its live log holds what comes from `kept` on. What is open in it stays
    /// open.
    Checkpointed {
        name: Name,
        time: u64,
        kept: Lsn,
    },
    /// A database was based on the set with this header.
    Based {
        name: Name,
        header: Header,
    },
}
