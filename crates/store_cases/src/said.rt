// What a line has a database say.
ghost use Rattle.std.specs.Prelude.{IfOk, IfSome};
ghost use Rattle.bk_bytes.specs.Cell.{IsCell};
ghost use Rattle.bk_record.specs.Spelling.{KeepsLimits};

use crate::words::{name_of, number, word};
use bk_bytes::Cell;
use bk_ids::{Body, CellImage, Guid, Lsn, Place, Rec, Sequence, Slot};
use bk_world::Open;
use std::alloc::{AllocError, Global};

// The cell of a row of table 1 with this key, a free one for 0.
fn image(key: u64) -> CellImage
    ensures { IsCell result.bytes }
{
    let cell = match key {
        0 => Cell::Free,
        key => Cell::Used {
            table: 1,
            key,
            value: b"value",
        },
    };
    CellImage {
        bytes: cell.image(),
    }
}

// The cell of this number in the first extent with rows.
fn place_of(cell: u64) -> Option<Place> {
    let slot = Slot::new((cell % 63) as u16)?;
    let page = 8 + (cell / 63 % 8) as u32;
    Some(Place {
        file: 1,
        page,
        slot,
    })
}

// What `write AT BEGIN CELL BEFORE AFTER` says, or `undo AT BEGIN CELL BEFORE WRITE`.
fn change_of(words: &[&str]) -> Option<Body>
    ensures { IfSome result KeepsLimits }
{
    let place = place_of(number(words, 3))?;
    if word(words, 0) == "write" {
        return Some(Body::Write {
            place,
            before: image(number(words, 4)),
            after: image(number(words, 5)),
        });
    }
    Some(Body::Compensation {
        place,
        cell: image(number(words, 4)),
        undone: number(words, 5),
    })
}

// What `table AT TIME NAME` says: the first table.
fn table_of(alloc: Global, words: &[&str]) -> Result<Body, AllocError>
    ensures { IfOk result KeepsLimits }
{
    Ok(Body::Table {
        time: number(words, 2),
        number: 1,
        name: name_of(alloc, word(words, 3))?,
        group: 0,
    })
}

// What `stamp AT TIME`, `commit AT BEGIN TIME`, `begin AT` or `end AT BEGIN` says; none for another word.
fn plain_of(words: &[&str]) -> Option<Body>
    ensures { IfSome result KeepsLimits }
{
    match word(words, 0) {
        "stamp" => Some(Body::Stamp {
            time: number(words, 2),
            set: Guid { high: 9, low: 1 },
        }),
        "commit" => Some(Body::Commit {
            time: number(words, 3),
            mark: None,
        }),
        "begin" => Some(Body::Begin),
        "end" => Some(Body::RollbackEnd),
        _ => None,
    }
}

// What a line says, if it says something.
fn body_of(alloc: Global, words: &[&str]) -> Result<Option<Body>, AllocError>
    ensures { IfOk result (λ said. IfSome said KeepsLimits) }
{
    match word(words, 0) {
        "table" => Ok(Some(table_of(alloc, words)?)),
        "write" | "undo" => Ok(change_of(words)),
        _ => Ok(plain_of(words)),
    }
}

// The number of the first record of the transaction that a line is of, where the next record has this number; 0 where it is of none.
fn begin_of(words: &[&str], end: Lsn) -> Lsn {
    match word(words, 0) {
        "begin" => end,
        "write" | "undo" | "commit" | "end" => number(words, 2),
        _ => 0,
    }
}

/// The record of this number that a line says, if it says one.
pub(crate) fn record_of(alloc: Global, words: &[&str], end: Lsn) -> Result<Option<Rec>, AllocError>
    ensures { IfOk result (λ said. IfSome said (λ r. KeepsLimits r.body)) }
{
    let Some(body) = body_of(alloc, words)? else {
        return Ok(None);
    };
    Ok(Some(Rec {
        lsn: end,
        begin: begin_of(words, end),
        body,
    }))
}

/// Whether what a line says is to last: all but that a transaction begins, writes or undoes.
pub(crate) fn lasts(words: &[&str]) -> bool {
    !matches!(word(words, 0), "begin" | "write" | "undo")
}

// A copy of these transactions, but for the one that began with this record.
fn others(alloc: Global, open: &[Open], ended: Lsn) -> Result<Vec<Open>, AllocError> {
    let mut left = Vec::new(alloc);
    for one in open {
        if one.begin != ended {
            left.push(one.copy(alloc)?)?;
        }
    }
    Ok(left)
}

/// What is open behind a line, where the next record has this number.
pub(crate) fn open_behind(
    alloc: Global,
    open: &[Open],
    words: &[&str],
    end: Lsn,
) -> Result<Sequence<Open>, AllocError> {
    let ended = match word(words, 0) {
        "commit" | "end" => number(words, 2),
        _ => 0,
    };
    let mut left = others(alloc, open, ended)?;
    if word(words, 0) == "begin" {
        left.push(Open {
            session: 1,
            begin: end,
            mark: None,
        })?;
    }
    Ok(Sequence::new(left))
}
