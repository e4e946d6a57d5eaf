// The data files of one database, and its side file.
ghost use Rattle.std.specs.Prelude.{◌≡◌, ◌≤◌, ◌<◌, ◌⊎◌, ◌+◌, ◌++◌, ◌∷◌, [], ℕ, Some, map, true, false, is_err, IsTrue, ◌↔◌, IfOk, IsErr, IsErrOf, OnOk, IsSome};
ghost use Rattle.bk_device.specs.Calls.{ChangesNothing};
ghost use Rattle.bk_device.specs.Counts.{HasCause};
ghost use Rattle.bk_device.specs.Effects.{Effect, MayLeaveOwn};
ghost use Rattle.bk_page.specs.Page.{fresh_page};
ghost use Rattle.bk_side.specs.Making.{ShowsOthers};
ghost use Rattle.bk_side.specs.Names.{data_file, side_file, name_of, IsOwn, AreDifferent};
ghost use Rattle.bk_side.specs.Pages.{shown, batched, Shows, IsSound};
ghost use Rattle.bk_side.specs.Side.{Kept, HasNoBatch, IsSide, IsOwnOf, pages_of, ShowsPages, added_of};

use crate::entry::spell_entry;
use crate::error::SideError;
use crate::finishing::{finish, settle};
use crate::making::make_file;
use crate::name::{data_files, name_of, side_file};
use crate::reading::{read_page, read_plain};
use bk_device::{Device, Failed, remove_durably};
use bk_frames::Page;
use bk_gate::Gate;
use bk_ids::Text;
use std::alloc::Global;
use std::marker::Model;

/// The data files of one database, numbered 1, 2, .. in their order, and its side file.
///
/// Once a call that took the value by `&mut` has answered `Failed` it is failed, and is no longer used.
pub struct Side {
    // a blob is begun
    gate: Gate,
    // the data files by number, from 1 on
    names: Vec<Text>,
    failed: bool,
}

impl Drop for Side {
    fn drop(self) {
        let Side {
            gate: _,
            names: _,
            failed: _,
        } = self;
    }
}

impl Model for Side {
    ghost Value = { Kept };

    ghost view = { λ s. record { gate = s.gate; names = s.names.items; failed = s.failed } };

    ghost invariant = { λ s. s.failed ≡ false → (s.gate.failed ≡ false) × (IsSome s.gate.begun × (1 ≤ s.gate.spare)) };
}

impl Side {
    /// Opens the side file of a database whose data files, of different names, are at these paths, and makes it where there is none.
    /// What the files hold is made durable first, and a sealed batch is finished: no page counts as another one behind that, nor at
    /// any crash meanwhile. Where the side file is there without such a batch, nothing is changed. All the room is made that `add`
    /// and `apply` need.
    pub fn load<D: Device>(
        alloc: Global,
        dev: &mut D,
        db: u32,
        paths: &[Text],
    ) -> Result<Side, SideError>
        requires different { D.tells → AreDifferent (map data_file paths.now) }
        ensures name { IfOk result (λ s. s.gate.name ≡ side_file db) }
        ensures names { IfOk result (λ s. s.names ≡ map data_file paths.now) }
        ensures failed { IfOk result (λ s. s.failed ≡ false) }
        ensures stands { D.tells → IfOk result (λ s. IsSide (D.disk dev.new) s) }
        ensures none { D.tells → IfOk result (λ s. added_of (D.disk dev.new) s ≡ []) }
        ensures same { D.tells → OnOk result (Shows (side_file db) (map data_file paths.now) (shown (side_file db) (map data_file paths.now) (D.disk dev.old).files) (D.disk dev.new).files) }
        ensures still { D.tells → HasNoBatch (side_file db) (D.disk dev.old).files → OnOk result (ChangesNothing (D.disk dev.old) (D.disk dev.new)) }
        ensures crash { D.tells → Effect (IsOwn (side_file db) (map data_file paths.now)) (λ image. MayLeaveOwn (IsOwn (side_file db) (map data_file paths.now)) (D.disk dev.old) image ⊎ Shows (side_file db) (map data_file paths.now) (shown (side_file db) (map data_file paths.now) (D.disk dev.old).files) image) (D.disk dev.old) (D.disk dev.new) }
        ensures cause { HasCause D.disk_faults D.tell_faults dev.old dev.new (IsErrOf result SideError.Fault) }
    {
        let names = data_files(alloc, paths)?;
        let name = side_file(alloc, db)?;
        let mut gate = settle(alloc, dev, name.as_str(), &names)?;
        gate.begin();
        Ok(Side {
            gate,
            names,
            failed: false,
        })
    }

    /// Whether there is a data file of this number. They count from 1.
    pub fn has_file(&self, file: u16) -> bool
        ensures { IsTrue result ↔ IsSome (name_of self.now.names file) }
    {
        name_of(&self.names, file).is_some()
    }

    /// Adds a page to the batch, which the next `apply` writes. Takes no memory.
    pub fn add<D: Device>(
        &mut self,
        dev: &mut D,
        file: u16,
        page: u32,
        bytes: &Page,
    ) -> Result<(), Failed>
        requires fit { self.old.failed ≡ false }
        requires stands { D.tells → IsSide (D.disk dev.old) self.old }
        ensures failed { self.new.failed ≡ is_err result }
        ensures name { self.new.gate.name ≡ self.old.gate.name }
        ensures names { self.new.names ≡ self.old.names }
        ensures stands { D.tells → OnOk result (IsSide (D.disk dev.new) self.new) }
        ensures added { D.tells → OnOk result (added_of (D.disk dev.new) self.new ≡ added_of (D.disk dev.old) self.old ++ ((file, page), bytes.now) ∷ []) }
        ensures same { D.tells → OnOk result (ShowsPages self.old (pages_of self.old (D.disk dev.old).files) (D.disk dev.new).files) }
        ensures crash { D.tells → Effect (IsOwnOf self.old) (ShowsPages self.old (pages_of self.old (D.disk dev.old).files)) (D.disk dev.old) (D.disk dev.new) }
        ensures cause { HasCause D.disk_faults D.tell_faults dev.old dev.new (IsErr result) }
    {
        let entry = spell_entry(file, page, bytes);
        self.failed = true;
        self.gate.add(dev, &entry)?;
        self.failed = false;
        Ok(())
    }

    /// Writes the pages that were added to their data files, each where it lies whole there: the last one of a page counts. A crash
    /// leaves all pages as they were, or all that were added. Takes no memory.
    pub fn apply<D: Device>(&mut self, dev: &mut D) -> Result<(), Failed>
        requires fit { self.old.failed ≡ false }
        requires stands { D.tells → IsSide (D.disk dev.old) self.old }
        ensures failed { self.new.failed ≡ is_err result }
        ensures name { self.new.gate.name ≡ self.old.gate.name }
        ensures names { self.new.names ≡ self.old.names }
        ensures stands { D.tells → OnOk result (IsSide (D.disk dev.new) self.new) }
        ensures none { D.tells → OnOk result (added_of (D.disk dev.new) self.new ≡ []) }
        ensures pages { D.tells → OnOk result (ShowsPages self.old (λ at. batched (added_of (D.disk dev.old) self.old) at (pages_of self.old (D.disk dev.old).files at)) (D.disk dev.new).files) }
        ensures crash { D.tells → Effect (IsOwnOf self.old) (λ image. ShowsPages self.old (pages_of self.old (D.disk dev.old).files) image ⊎ ShowsPages self.old (λ at. batched (added_of (D.disk dev.old) self.old) at (pages_of self.old (D.disk dev.old).files at)) image) (D.disk dev.old) (D.disk dev.new) }
        ensures cause { HasCause D.disk_faults D.tell_faults dev.old dev.new (IsErr result) }
    {
        self.failed = true;
        self.gate.seal_reserved(dev)?;
        finish(&mut self.gate, dev, &self.names)?;
        self.gate.begin();
        self.failed = false;
        Ok(())
    }

    /// Reads a page. Answers whether it is whole in its data file and stores the digest of its bytes: then they stand in the
    /// buffer, which may else hold anything. Changes nothing.
    pub fn read<D: Device>(
        &self,
        dev: &mut D,
        file: u16,
        number: u32,
        page: &mut Page,
    ) -> Result<bool, Failed>
        requires { D.tells → IsSide (D.disk dev.old) self.now }
        ensures sound { D.tells → IfOk result (λ is_sound. is_sound ≡ true → IsSound (pages_of self.now (D.disk dev.old).files (file, number))) }
        ensures broken { D.tells → IfOk result (λ is_sound. is_sound ≡ false → IsSound (pages_of self.now (D.disk dev.old).files (file, number)) → ⊥) }
        ensures page { D.tells → IfOk result (λ is_sound. is_sound ≡ true → page.new ≡ pages_of self.now (D.disk dev.old).files (file, number)) }
        ensures effect { D.tells → ChangesNothing (D.disk dev.old) (D.disk dev.new) }
        ensures cause { HasCause D.disk_faults D.tell_faults dev.old dev.new (IsErr result) }
    {
        read_page(dev, &self.names, file, number, page)
    }

    /// Reads a page, whatever digest it stores. Answers whether it is whole in its data file: then its bytes stand in the buffer,
    /// which may else hold anything. Changes nothing.
    pub fn read_plain<D: Device>(
        &self,
        dev: &mut D,
        file: u16,
        number: u32,
        page: &mut Page,
    ) -> Result<bool, Failed>
        requires { D.tells → IsSide (D.disk dev.old) self.now }
        ensures short { D.tells → IfOk result (λ is_whole. is_whole ≡ false → IsSound (pages_of self.now (D.disk dev.old).files (file, number)) → ⊥) }
        ensures page { D.tells → IfOk result (λ is_whole. is_whole ≡ true → page.new ≡ pages_of self.now (D.disk dev.old).files (file, number)) }
        ensures effect { D.tells → ChangesNothing (D.disk dev.old) (D.disk dev.new) }
        ensures cause { HasCause D.disk_faults D.tell_faults dev.old dev.new (IsErr result) }
    {
        read_plain(dev, &self.names, file, number, page)
    }

    /// Makes a data file of so many pages, each as it is before any log record, in place of what was there. There is a data file of
    /// this number. A crash may leave any bytes there, and leaves the pages of all other files.
    pub fn make<D: Device>(&mut self, dev: &mut D, file: u16, pages: u32) -> Result<(), Failed>
        requires fit { self.old.failed ≡ false }
        requires there { IsSome (name_of self.old.names file) }
        requires stands { D.tells → IsSide (D.disk dev.old) self.old }
        ensures failed { self.new.failed ≡ is_err result }
        ensures gate { self.new.gate ≡ self.old.gate }
        ensures names { self.new.names ≡ self.old.names }
        ensures stands { D.tells → OnOk result (IsSide (D.disk dev.new) self.new) }
        ensures added { D.tells → OnOk result (added_of (D.disk dev.new) self.new ≡ added_of (D.disk dev.old) self.old) }
        ensures fresh { D.tells → OnOk result ((number : ℕ) → number < pages → pages_of self.old (D.disk dev.new).files (file, number) ≡ fresh_page file number) }
        ensures end { D.tells → OnOk result ((number : ℕ) → pages ≤ number → pages_of self.old (D.disk dev.new).files (file, number) ≡ []) }
        ensures others { D.tells → OnOk result (ShowsOthers self.old.gate.name self.old.names file (D.disk dev.old).files (D.disk dev.new).files) }
        ensures crash { D.tells → Effect (IsOwnOf self.old) (ShowsOthers self.old.gate.name self.old.names file (D.disk dev.old).files) (D.disk dev.old) (D.disk dev.new) }
        ensures cause { HasCause D.disk_faults D.tell_faults dev.old dev.new (IsErr result) }
    {
        self.failed = true;
        let Some(name) = name_of(&self.names, file) else {
            unreachable!()
        };
        make_file(dev, name, file, pages)?;
        self.failed = false;
        Ok(())
    }

    /// Removes a data file. There is a data file of this number. A crash leaves the pages of all other files.
    pub fn remove<D: Device>(&mut self, dev: &mut D, file: u16) -> Result<(), Failed>
        requires fit { self.old.failed ≡ false }
        requires there { IsSome (name_of self.old.names file) }
        requires stands { D.tells → IsSide (D.disk dev.old) self.old }
        ensures failed { self.new.failed ≡ is_err result }
        ensures gate { self.new.gate ≡ self.old.gate }
        ensures names { self.new.names ≡ self.old.names }
        ensures stands { D.tells → OnOk result (IsSide (D.disk dev.new) self.new) }
        ensures added { D.tells → OnOk result (added_of (D.disk dev.new) self.new ≡ added_of (D.disk dev.old) self.old) }
        ensures gone { D.tells → OnOk result ((number : ℕ) → pages_of self.old (D.disk dev.new).files (file, number) ≡ []) }
        ensures others { D.tells → OnOk result (ShowsOthers self.old.gate.name self.old.names file (D.disk dev.old).files (D.disk dev.new).files) }
        ensures crash { D.tells → Effect (IsOwnOf self.old) (ShowsOthers self.old.gate.name self.old.names file (D.disk dev.old).files) (D.disk dev.old) (D.disk dev.new) }
        ensures cause { HasCause D.disk_faults D.tell_faults dev.old dev.new (IsErr result) }
    {
        self.failed = true;
        let Some(name) = name_of(&self.names, file) else {
            unreachable!()
        };
        remove_durably(dev, name)?;
        self.failed = false;
        Ok(())
    }
}
