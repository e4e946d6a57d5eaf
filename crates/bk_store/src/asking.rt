// What a store says of its database.
ghost use Rattle.std.specs.Prelude.{◌≡◌};
ghost use Rattle.bk_paged.specs.Names.{pages_in};

use crate::store::Store;
use bk_facts::DataFile;
use bk_known::DatabaseSpec;
use bk_shown::Shown;

impl Store {
    /// What the log shows: tables, committed rows, pending writes, places, model and last time. Asking it reads no page.
    pub fn shown(&self) -> &Shown
        ensures { result.now ≡ self.now.shown }
    {
        &self.shown
    }

    /// The database's name, family, branches, groups, files and log.
    pub fn spec(&self) -> &DatabaseSpec
        ensures { result.now ≡ self.now.known.spec }
    {
        &self.known.spec
    }

    /// The data files in which its pages lie.
    pub fn files(&self) -> &[DataFile]
        ensures { result.now ≡ self.now.paged.facts.files }
    {
        self.paged.files()
    }

    /// How many pages the data file of a number has: the 8 of its header, and 8 an extent; 0 where there is none of this number.
    pub fn pages(&self, file: u16) -> u32
        ensures { result ≡ pages_in self.now.paged.facts.files file }
    {
        self.paged.pages(file)
    }
}
