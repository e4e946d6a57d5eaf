//! One log record more.

ghost use Rattle.std.specs.Prelude.{◌≡◌, ◌<◌, ◌≤◌, ◌∷◌, ◌++◌, [], List, length, IfOk, OnErr, OnOk, IsErrOf};
ghost use Rattle.bk_record.specs.View.{record_of, body_of};
ghost use Rattle.bk_undo.specs.Spelled.{spelled};
ghost use Rattle.bk_world.specs.declared.database.FileSpec.{FileSpec};
ghost use Rattle.bk_world.specs.Records.{Logged};
ghost use Rattle.bk_shown.specs.Shown.{Shows, IsNext};
ghost use Rattle.bk_shown.specs.Steps.{IsUnfit, IsUnfitReserved, MakesTable, MayMake, TakesBody, model_behind, time_behind};
ghost use Rattle.bk_shown.specs.declared.error.TakeError.TheVariants.{Unfit};

use crate::error::{NotNext, TakeError};
use crate::shown::Shown;
use bk_ids::{Name, NameError, RecoveryModel};
use bk_record::{BodyRef, RecRef};
use bk_world::TableSpec;
use std::alloc::{AllocError, Global};

// Numbers from here on, 2^62, are never given.
const LAST_NUMBER: u64 = 1 << 62;

// Puts one thing more behind a list.
pub(crate) fn push<T: Drop>(list: &mut Vec<T>, item: T) -> Result<(), AllocError>
    ensures { OnOk result (list.new.items ≡ list.old.items ++ item ∷ []) }
{
    list.push(item)?;
    Ok(())
}

// The name that a text spells.
fn name_of(alloc: Global, text: &str) -> Result<Name, TakeError>
    ensures name { IfOk result (λ name. name ≡ text.now) }
    ensures unfit { IsErrOf result Unfit → 0 < length text.now → length text.now ≤ 64 → ⊥ }
{
    if text.is_empty() {
        return Err(TakeError::Unfit);
    }
    match Name::new(alloc, text) {
        Ok(name) => Ok(name),
        Err(NameError::TooLong { .. }) => Err(TakeError::Unfit),
        Err(NameError::NoMemory) => Err(TakeError::NoMemory),
    }
}

impl Shown {
    // A table was made.
    pub(crate) fn take_table(&mut self, number: u32, name: &str, group: u8) -> Result<(), TakeError>
        ensures ok { OnOk result (MakesTable (record { number = number; name = name.now; group = group }) self.old self.new) }
        ensures unfit { IsErrOf result Unfit → MayMake self.old.groups number name.now → ⊥ }
    {
        if self.groups.group(number).is_some() {
            return Err(TakeError::Unfit);
        }
        let name = name_of(self.alloc, name)?;
        self.groups.add_table(number, group)?;
        let table = TableSpec {
            number,
            name,
            group,
        };
        push(&mut self.tables, table)?;
        Ok(())
    }

    // What the body of a record that takes no memory makes of what is kept.
    fn take_body_reserved(&mut self, taken: RecRef<'_>) -> Result<(), NotNext>
        ensures ok { OnOk result (TakesBody taken.entry.lsn taken.entry.begin (body_of taken.entry.body) self.old self.new) }
        ensures unfit { OnErr result (IsUnfitReserved taken.entry.begin (body_of taken.entry.body) self.old) }
    {
        match taken.body {
            BodyRef::Commit { .. } => self.commit(taken.begin),
            BodyRef::Compensation { undone, .. } => {
                self.undo(undone);
                Ok(())
            }
            BodyRef::Table { .. } | BodyRef::Write { .. } | BodyRef::Bulk { .. } => Err(NotNext),
            _ => Ok(()),
        }
    }

    // What the body of a record makes of what is kept.
    fn take_body(&mut self, taken: RecRef<'_>) -> Result<(), TakeError>
        ensures ok { OnOk result (TakesBody taken.entry.lsn taken.entry.begin (body_of taken.entry.body) self.old self.new) }
        ensures unfit { IsErrOf result Unfit → IsUnfit taken.entry.begin (body_of taken.entry.body) self.old }
    {
        match taken.body {
            BodyRef::Table {
                number,
                name,
                group,
                ..
            } => self.take_table(number, name, group),
            BodyRef::Write {
                place,
                before,
                after,
            } => self.take_write(taken.lsn, taken.begin, place, before, after),
            _ => {
                self.take_body_reserved(taken)?;
                Ok(())
            }
        }
    }

    // The recovery model behind a record.
    fn take_model(&mut self, body: BodyRef<'_>)
        ensures { self.new ≡ record self.old { model = model_behind (body_of body.entry) self.old.model } }
    {
        match body {
            BodyRef::Database { .. } => self.model = RecoveryModel::Full,
            BodyRef::Model { model, .. } => self.model = model,
            _ => {}
        }
    }

    // The last time behind a record.
    fn take_time(&mut self, body: BodyRef<'_>)
        ensures { self.new ≡ record self.old { time = time_behind (body_of body.entry) self.old.time } }
    {
        match body {
            BodyRef::Database { time, .. }
            | BodyRef::Table { time, .. }
            | BodyRef::Commit { time, .. }
            | BodyRef::Checkpoint { time }
            | BodyRef::Stamp { time, .. }
            | BodyRef::Model { time, .. } => self.time = time,
            _ => {}
        }
    }

    /// Takes one log record more in. `Unfit` comes only where the record can't come behind those that were taken in, or is
    /// one of a minimal load; after an error nothing is promised of what is kept.
    pub fn take(&mut self, taken: RecRef<'_>) -> Result<(), TakeError>
        ensures next { OnOk result ((files : List FileSpec) (rs : List Logged) (r : Logged) → Shows files rs self.old → IsNext files rs r → record_of taken.entry ≡ spelled r → Shows files (rs ++ r ∷ []) self.new) }
        ensures unfit { IsErrOf result Unfit → (files : List FileSpec) (rs : List Logged) (r : Logged) → Shows files rs self.old → IsNext files rs r → record_of taken.entry ≡ spelled r → ⊥ }
    {
        if taken.lsn != self.end || self.end >= LAST_NUMBER {
            return Err(TakeError::Unfit);
        }
        let end = self.end + 1;
        self.take_body(taken)?;
        self.take_model(taken.body);
        self.take_time(taken.body);
        self.end = end;
        Ok(())
    }
}
