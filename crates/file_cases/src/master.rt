// An instance's own files.
ghost use Rattle.std.specs.Prelude.{◌≤◌, length, IfOk};
ghost use Rattle.bk_master.specs.Spelling.{IsShort, KeepsRecord};

use crate::words::{number, number32, word};
use bk_ids::{Guid, Sequence, Text};
use bk_master::{Entry, Master, MasterError, Own, Record};
use std::alloc::{AllocError, Global};
use trials::Untold;

// A path of 1 to 100 bytes; none where the word is none, or longer.
fn path(alloc: Global, word: &str) -> Result<Option<Text>, AllocError>
    ensures { IfOk result IsShort }
{
    if word.is_empty() || word.len() > 100 {
        return Ok(None);
    }
    Ok(Some(Text::new(String::from_str(alloc, word)?)))
}

fn guid(low: u64) -> Guid {
    Guid { high: 1, low }
}

// What stands beside the databases: the counter, the path of the medium that is being made, the set that is being staged and copied.
fn own(alloc: Global, instance: u64, words: &[&str]) -> Result<Own, AllocError>
    ensures short { IfOk result (λ own. IsShort own.making) }
    ensures few { IfOk result (λ own. length own.copying ≤ 16) }
{
    let set = guid(number(words, 5));
    Ok(Own {
        number: instance,
        counter: number(words, 3),
        making: path(alloc, word(words, 4))?,
        staging: Some(set),
        copying: Sequence::new(vec![in alloc; set]?),
    })
}

// The record that the words behind `put` say: COUNTER PATH SET NEXT STORE.
fn record(alloc: Global, instance: u64, words: &[&str]) -> Result<Record, AllocError>
    ensures { IfOk result KeepsRecord }
{
    let entry = Entry {
        store: number32(words, 7),
        is_stored: true,
    };
    Ok(Record {
        own: own(alloc, instance, words)?,
        next: number32(words, 6),
        databases: Sequence::new(vec![in alloc; entry]?),
        unfinished: Sequence::new(Vec::new(alloc)),
    })
}

// Opens the instance, or makes it with the number that stands behind the layer; then `put ..`, or nothing.
fn call(alloc: Global, device: &mut Untold, words: &[&str]) -> Result<Master, MasterError> {
    let mut master = Master::load(alloc, device, number(words, 1))?;
    if word(words, 2) == "put" {
        let next = record(alloc, master.record().own.number, words)?;
        master.put(alloc, device, next)?;
    }
    Ok(master)
}

pub(crate) fn run(
    alloc: Global,
    device: &mut Untold,
    words: &[&str],
    out: &mut String,
) -> Result<(), AllocError> {
    match call(alloc, device, words) {
        Ok(master) => write!(out, "{:?}", master.record()),
        Err(error) => write!(out, "{error}"),
    }
}
