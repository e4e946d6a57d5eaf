// Saying the first record of a database.
ghost use Rattle.std.specs.Prelude.{◌≡◌, ◌+◌, false, OnOk, IsErrOf};
ghost use Rattle.bk_device.specs.Counts.{HasCause};
ghost use Rattle.bk_paged.specs.Paged.{Standing};
ghost use Rattle.bk_record.specs.Spelling.{KeepsLimits};
ghost use Rattle.bk_shown.specs.Shown.{IsNext};
ghost use Rattle.bk_undo.specs.Spelled.{spelled};
ghost use Rattle.bk_world.specs.Records.{Logged, database_made};
ghost use Rattle.bk_store.specs.Store.{Crashes, IsStore, MayBeSaid, at_end};
ghost use Rattle.bk_store.specs.Told.{Told, files_of, said};

use crate::error::StoreError;
use crate::store::Store;
use bk_device::Device;
use bk_ids::{Body, Guid, Rec};
use std::alloc::Global;

impl Store {
    // Says a record behind the others, and makes all that was said durable.
    fn say_durably<D: Device>(
        &mut self,
        alloc: Global,
        dev: &mut D,
        r: &Rec,
    ) -> Result<(), StoreError>
        requires fit { self.old.paged.failed ≡ false }
        requires limits { KeepsLimits r.now.body }
        requires standing { D.tells → Standing (D.disk dev.old) self.old.paged }
        ensures fit { OnOk result (self.new.paged.failed ≡ false) }
        ensures stands { D.tells → (told : Told) (now : Logged) → IsStore (D.disk dev.old) self.old told → IsNext (files_of told) told.records now → spelled now ≡ r.now → OnOk result (IsStore (D.disk dev.new) self.new (said told now)) }
        ensures ends { OnOk result ((self.new.paged.log.db ≡ self.old.paged.log.db) × (self.new.paged.log.end ≡ self.old.paged.log.end + 1) × (self.new.paged.log.stored ≡ self.new.paged.log.end) × (self.new.paged.log.head.kept ≡ self.old.paged.log.head.kept)) }
        ensures crash { D.tells → (told : Told) (now : Logged) → IsStore (D.disk dev.old) self.old told → IsNext (files_of told) told.records now → spelled now ≡ r.now → Crashes self.old (said told now) (D.disk dev.old) (D.disk dev.new) }
        ensures cause { HasCause D.disk_faults D.tell_faults dev.old dev.new (IsErrOf result StoreError.Fault) }
    {
        self.say(alloc, dev, r)?;
        self.flush(alloc, dev)
    }

    // Says that a database of this family was made at this time, in milliseconds since 1970-01-01 00:00:00 UTC, and makes that durable.
    pub(crate) fn found<D: Device>(
        &mut self,
        alloc: Global,
        dev: &mut D,
        time: u64,
        family: Guid,
        branch: Guid,
    ) -> Result<(), StoreError>
        requires fit { self.old.paged.failed ≡ false }
        requires standing { D.tells → Standing (D.disk dev.old) self.old.paged }
        ensures fit { OnOk result (self.new.paged.failed ≡ false) }
        ensures stands { D.tells → (told : Told) → IsStore (D.disk dev.old) self.old told → MayBeSaid self.old told 0 (database_made time family branch) → OnOk result (IsStore (D.disk dev.new) self.new (said told (at_end self.old 0 (database_made time family branch)))) }
        ensures ends { OnOk result ((self.new.paged.log.db ≡ self.old.paged.log.db) × (self.new.paged.log.end ≡ self.old.paged.log.end + 1) × (self.new.paged.log.stored ≡ self.new.paged.log.end) × (self.new.paged.log.head.kept ≡ self.old.paged.log.head.kept)) }
        ensures crash { D.tells → (told : Told) → IsStore (D.disk dev.old) self.old told → MayBeSaid self.old told 0 (database_made time family branch) → Crashes self.old (said told (at_end self.old 0 (database_made time family branch))) (D.disk dev.old) (D.disk dev.new) }
        ensures cause { HasCause D.disk_faults D.tell_faults dev.old dev.new (IsErrOf result StoreError.Fault) }
    {
        let r = Rec {
            lsn: self.paged.end(),
            begin: 0,
            body: Body::Database {
                time,
                family,
                branch,
            },
        };
        let done = self.say_durably(alloc, dev, &r);
        drop(r);
        done
    }
}
