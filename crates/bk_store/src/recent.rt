// What the end of a log says.
ghost use Rattle.std.specs.Prelude.{◌≡◌, ◌≤◌, List, length, IfOk, OnOk, IsErrOf};
ghost use Rattle.bk_shown.specs.Steps.{model_behind, time_behind};
ghost use Rattle.bk_ids.specs.declared.record.Rec.{Rec};
ghost use Rattle.bk_record.specs.Skims.{Shows};
ghost use Rattle.bk_record.specs.Spelling.{IsBody};
ghost use Rattle.bk_record.specs.View.{body_of};
ghost use Rattle.bk_world.specs.Records.{Logged};
ghost use Rattle.bk_store.specs.Recent.{Says, SaysFront, Takes, tables_behind};

use bk_ids::{Name, NameError, RecoveryModel};
use bk_paged::PagedError;
use bk_record::{BodyRef, RecRef, Skimmed, skim_at};
use bk_world::TableSpec;
use std::alloc::Global;

/// Tables, recovery model and last time (milliseconds since 1970-01-01 00:00:00 UTC), as a log's records say.
pub struct Recent {
    pub tables: Vec<TableSpec>,
    pub model: RecoveryModel,
    pub time: u64,
}

impl Drop for Recent {
    fn drop(self) {
        let Recent {
            tables: _,
            model: _,
            time: _,
        } = self;
    }
}

// The name that a text spells. `Foreign` is answered where it has not 1 to 64 bytes.
fn name_of(alloc: Global, text: &str) -> Result<Name, PagedError>
    ensures name { IfOk result (λ name. name ≡ text.now) }
    ensures foreign { IsErrOf result PagedError.Foreign → 1 ≤ length text.now → length text.now ≤ 64 → ⊥ }
    ensures fault { IsErrOf result PagedError.Fault → ⊥ }
{
    if text.is_empty() {
        return Err(PagedError::Foreign);
    }
    match Name::new(alloc, text) {
        Ok(name) => Ok(name),
        Err(NameError::TooLong { .. }) => Err(PagedError::Foreign),
        Err(NameError::NoMemory) => Err(PagedError::NoMemory),
    }
}

// The last time behind a record.
fn take_time(time: &mut u64, body: BodyRef<'_>)
    ensures { time.new ≡ time_behind (body_of body.entry) time.old }
{
    match body {
        BodyRef::Database { time: at, .. }
        | BodyRef::Table { time: at, .. }
        | BodyRef::Commit { time: at, .. }
        | BodyRef::Checkpoint { time: at }
        | BodyRef::Stamp { time: at, .. }
        | BodyRef::Model { time: at, .. } => *time = at,
        _ => {}
    }
}

// The recovery model behind a record.
fn take_model(model: &mut RecoveryModel, body: BodyRef<'_>)
    ensures { model.new ≡ model_behind (body_of body.entry) model.old }
{
    match body {
        BodyRef::Database { .. } => *model = RecoveryModel::Full,
        BodyRef::Model { model: set, .. } => *model = set,
        _ => {}
    }
}

// The tables behind a record.
fn take_tables(
    alloc: Global,
    tables: &mut Vec<TableSpec>,
    body: BodyRef<'_>,
) -> Result<(), PagedError>
    ensures tables { OnOk result (tables.new.items ≡ tables_behind (body_of body.entry) tables.old.items) }
    ensures foreign { IsErrOf result PagedError.Foreign → IsBody (body_of body.entry) → ⊥ }
    ensures fault { IsErrOf result PagedError.Fault → ⊥ }
{
    if let BodyRef::Table {
        number,
        name,
        group,
        ..
    } = body
    {
        let name = name_of(alloc, name)?;
        tables.push(TableSpec {
            number,
            name,
            group,
        })?;
    }
    Ok(())
}

// What a record makes of them.
fn take_record(alloc: Global, recent: &mut Recent, taken: RecRef<'_>) -> Result<(), PagedError>
    ensures takes { OnOk result (Takes (body_of taken.entry.body) recent.old recent.new) }
    ensures foreign { IsErrOf result PagedError.Foreign → IsBody (body_of taken.entry.body) → ⊥ }
    ensures fault { IsErrOf result PagedError.Fault → ⊥ }
{
    take_tables(alloc, &mut recent.tables, taken.body)?;
    take_model(&mut recent.model, taken.body);
    take_time(&mut recent.time, taken.body);
    Ok(())
}

// What a record that was seen at a glance makes of them.
fn take_skimmed(alloc: Global, recent: &mut Recent, skimmed: Skimmed<'_>) -> Result<(), PagedError>
    ensures takes { (r : Rec) → Shows skimmed.entry r → OnOk result (Takes r.body recent.old recent.new) }
    ensures foreign { IsErrOf result PagedError.Foreign → (r : Rec) → Shows skimmed.entry r → IsBody r.body → ⊥ }
    ensures fault { IsErrOf result PagedError.Fault → ⊥ }
{
    match skimmed {
        Skimmed::Write { .. } => Ok(()),
        Skimmed::Other(record) => take_record(alloc, recent, record),
    }
}

/// What all records of a log say, from what a front of them says, and the bytes of the others. `Foreign` is answered only where these are no log.
pub fn told_behind(alloc: Global, first: Recent, log: &[u8]) -> Result<Recent, PagedError>
    ensures says { IfOk result (λ last. (rs : List Logged) → SaysFront rs log.now first → Says rs last) }
    ensures foreign { IsErrOf result PagedError.Foreign → (rs : List Logged) → SaysFront rs log.now first → ⊥ }
    ensures fault { IsErrOf result PagedError.Fault → ⊥ }
{
    let mut recent = first;
    let mut at = 0;
    'records: while let Some((skimmed, next)) = skim_at(log, at) {
        take_skimmed(alloc, &mut recent, skimmed)?;
        at = next;
    }
    if at < log.len() {
        return Err(PagedError::Foreign);
    }
    Ok(recent)
}
