// Which data files open stores have.
ghost use Rattle.std.specs.Prelude.{◌≡◌, ◌↔◌, Some, true, false, slice_get, IsTrue};
ghost use Rattle.bk_paged.specs.Names.{names_of};
ghost use Rattle.bk_side.specs.Names.{IsData, data_file};
ghost use Rattle.bk_store.specs.Store.{Kept as KeptStore};
ghost use Rattle.bk_stores.specs.Beside.{ShareNoFile};
ghost use Rattle.bk_stores.specs.Standing.{AreUnused, IsUnused};
ghost use Rattle.bk_stores.specs.Stores.{at_paths};

use crate::stores::Stores;
use bk_facts::DataFile;
use bk_ids::Text;
use bk_side::name_law;
use bk_store::Store;

// Whether two paths are of one data file.
fn are_one(path: &[u8], other: &[u8]) -> bool
    ensures { IsTrue result ↔ data_file path.now ≡ data_file other.now }
{
    name_law();
    path == other
}

// Whether one of these data files lies at a path.
fn has_path(files: &[DataFile], path: &Text) -> bool
    ensures has { result ≡ true → IsData (names_of files.now) (data_file path.now) }
    ensures none { result ≡ false → IsData (names_of files.now) (data_file path.now) → ⊥ }
{
    for file in files {
        if are_one(file.path.as_str().as_bytes(), path.as_str().as_bytes()) {
            return true;
        }
    }
    false
}

/// Whether none of these data files lies at one of these paths.
pub fn share_no_path(files: &[DataFile], paths: &[Text]) -> bool
    ensures none { result ≡ true → ShareNoFile (at_paths paths.now) files.now }
    ensures all { ShareNoFile (at_paths paths.now) files.now → result ≡ true }
{
    for path in paths {
        if has_path(files, path) {
            return false;
        }
    }
    true
}

// Whether a store is open and has a data file at a path.
fn uses(slot: &Option<Store>, path: &Text) -> bool
    ensures uses { result ≡ true → (s : KeptStore) × (slot.now ≡ Some s) × IsData (names_of s.paged.facts.files) (data_file path.now) }
    ensures none { result ≡ false → (s : KeptStore) → slot.now ≡ Some s → IsData (names_of s.paged.facts.files) (data_file path.now) → ⊥ }
{
    match slot {
        Some(store) => has_path(store.files(), path),
        None => false,
    }
}

impl Stores {
    /// Whether no open store has a data file at this path.
    pub fn is_unused(&self, path: &Text) -> bool
        ensures unused { result ≡ true → IsUnused self.now.slots (data_file path.now) }
        ensures all { IsUnused self.now.slots (data_file path.now) → result ≡ true }
    {
        for slot in &self.slots {
            if uses(slot, path) {
                return false;
            }
        }
        true
    }

    /// Whether no open store has a data file at one of these paths.
    pub fn are_unused(&self, paths: &[Text]) -> bool
        ensures unused { result ≡ true → AreUnused self.now.slots (at_paths paths.now) }
        ensures all { AreUnused self.now.slots (at_paths paths.now) → result ≡ true }
    {
        for path in paths {
            if !self.is_unused(path) {
                return false;
            }
        }
        true
    }

    /// Whether no open store has one of these data files.
    pub fn has_none_of(&self, files: &[DataFile]) -> bool
        ensures unused { result ≡ true → AreUnused self.now.slots files.now }
        ensures all { AreUnused self.now.slots files.now → result ≡ true }
    {
        for file in files {
            if !self.is_unused(&file.path) {
                return false;
            }
        }
        true
    }
}
