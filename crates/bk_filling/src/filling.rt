// Data files that are filled page by page.
ghost use Rattle.std.specs.Prelude.{◌≡◌, ◌≤◌, ◌<◌, ◌+◌, ◌++◌, ◌*◌, ◌↔◌, ◌^◌, ℕ, List, Some, length, map, slice_get, IfOk, IsErr, IsTrue, OnOk};
ghost use Rattle.bk_device.specs.Calls.{contents};
ghost use Rattle.bk_device.specs.Counts.{HasCause};
ghost use Rattle.bk_device.specs.Disk.{IsDurable};
ghost use Rattle.bk_device.specs.Effects.{Effect, IsName};
ghost use Rattle.bk_facts.specs.declared.facts.DataFile.{DataFile as File};
ghost use Rattle.bk_filling.specs.Filling.{IsFilling, Kept, MayFill, Shows, begun, names_of, one_more, place_of};
ghost use Rattle.bk_side.specs.Names.{IsData, data_file};

use bk_device::{Device, Failed};
use bk_facts::DataFile;
use bk_ids::{Sequence, Text};
use bk_page::Page;
use bk_side::data_files;
use std::alloc::{AllocError, Global};
use std::marker::Model;

/// The paths of data files.
pub fn file_paths(alloc: Global, files: &[DataFile]) -> Result<Vec<Text>, AllocError>
    ensures { IfOk result (λ paths. paths.items ≡ map (λ f. f.path) files.now) }
{
    let mut paths = Vec::new(alloc);
    for file in files {
        paths.push(file.path.copy(alloc)?)?;
    }
    Ok(paths)
}

// The device's names of data files.
fn file_names(alloc: Global, files: &[DataFile]) -> Result<Vec<Text>, AllocError>
    ensures { IfOk result (λ names. names.items ≡ names_of files.now) }
{
    let paths = file_paths(alloc, files)?;
    data_files(alloc, &paths)
}

// Writes a page at the end of a file, which has so many pages.
fn append_page<D: Device>(dev: &mut D, name: &str, number: u32, bytes: &Page) -> Result<(), Failed>
    requires { D.tells → length (contents ((D.disk dev.old).files name.now)) ≡ 8192 * number }
    ensures more { D.tells → OnOk result (contents ((D.disk dev.new).files name.now) ≡ contents ((D.disk dev.old).files name.now) ++ bytes.now) }
    ensures size { length bytes.now ≡ 8192 }
    ensures crash { D.tells → Effect (IsName name.now) (λ _. Unit {0}) (D.disk dev.old) (D.disk dev.new) }
    ensures cause { HasCause D.disk_faults D.tell_faults dev.old dev.new (IsErr result) }
{
    dev.write(name, 8192 * u64::from(number), bytes)?;
    Ok(())
}

// Writes the last page of a file, and syncs the file.
fn append_last<D: Device>(dev: &mut D, name: &str, number: u32, bytes: &Page) -> Result<(), Failed>
    requires { D.tells → length (contents ((D.disk dev.old).files name.now)) ≡ 8192 * number }
    ensures more { D.tells → OnOk result (contents ((D.disk dev.new).files name.now) ≡ contents ((D.disk dev.old).files name.now) ++ bytes.now) }
    ensures durable { D.tells → OnOk result (IsDurable (D.disk dev.new) name.now) }
    ensures size { length bytes.now ≡ 8192 }
    ensures crash { D.tells → Effect (IsName name.now) (λ _. Unit {0}) (D.disk dev.old) (D.disk dev.new) }
    ensures cause { HasCause D.disk_faults D.tell_faults dev.old dev.new (IsErr result) }
{
    append_page(dev, name, number, bytes)?;
    dev.sync(name)
}

/// Data files that are filled: their pages come in the order of file and number, from page 0 of the first file on.
#[derive(Drop)]
pub struct Filling {
    files: Vec<DataFile>,
    names: Vec<Text>,
    // how many of them are whole, and the next page of the one behind those
    whole: usize,
    page: u32,
}

impl Model for Filling {
    ghost Value = { Kept };

    ghost view = { λ f. record { files = f.files.items; whole = f.whole; page = f.page } };

    ghost invariant = { λ f. (f.names.items ≡ names_of f.files.items) × MayFill f.files.items × (f.whole ≤ length f.files.items) × ((d : File) → slice_get f.files.items f.whole ≡ Some d → f.page < d.pages) };
}

impl Filling {
    /// Begins with no page. No call on a device is made: the data files are to be absent or empty.
    pub fn begin(alloc: Global, files: Vec<DataFile>) -> Result<Filling, AllocError>
        requires { MayFill files.items }
        ensures { IfOk result (λ f. f ≡ begun files.items) }
    {
        let names = file_names(alloc, &files)?;
        Ok(Filling {
            files,
            names,
            whole: 0,
            page: 0,
        })
    }

    /// Whether all pages are there.
    pub fn is_whole(&self) -> bool
        ensures whole { IsTrue result ↔ (self.now.whole ≡ length self.now.files) }
        ensures next { IsTrue result ↔ (self.now.whole < length self.now.files → ⊥) }
    {
        self.whole == self.files.len()
    }

    /// The file, from 1 on, and the number of the next page. Not all pages are there.
    pub fn place(&self) -> (u16, u32)
        requires { self.now.whole < length self.now.files }
        ensures place { result ≡ place_of self.now }
        ensures inside { (d : File) → slice_get self.now.files self.now.whole ≡ Some d → result.1 < d.pages }
    {
        ((self.whole + 1) as u16, self.page)
    }

    /// The data files.
    pub fn files(&self) -> &[DataFile]
        ensures { result.now ≡ self.now.files }
    {
        &self.files
    }

    /// The data files.
    pub fn into_files(self) -> Sequence<DataFile>
        ensures files { result ≡ self.files }
        ensures may { MayFill self.files }
    {
        let files = self.files;
        Sequence::new(files)
    }

    // The name of the file of the next page.
    fn name(&self) -> &str
        requires { self.now.whole < length self.now.files }
        ensures { (d : File) → slice_get self.now.files self.now.whole ≡ Some d → result.now ≡ data_file d.path }
    {
        self.names[self.whole].as_str()
    }

    // How many pages it has.
    fn pages(&self) -> u32
        requires { self.now.whole < length self.now.files }
        ensures pages { (d : File) → slice_get self.now.files self.now.whole ≡ Some d → result ≡ d.pages }
        ensures inside { self.now.page < result }
    {
        self.files[self.whole].pages
    }

    // Writes the next page, which isn't the last one of its file.
    fn put<D: Device>(&mut self, dev: &mut D, bytes: &Page) -> Result<(), Failed>
        requires next { self.old.whole < length self.old.files }
        requires inside { (d : File) → slice_get self.old.files self.old.whole ≡ Some d → self.old.page + 1 < d.pages }
        requires small { self.old.page + 1 < 2 ^ 32 }
        requires stands { D.tells → IsFilling (D.disk dev.old) self.old }
        ensures next { OnOk result (self.new ≡ record self.old { page = self.old.page + 1 }) }
        ensures stands { D.tells → OnOk result (IsFilling (D.disk dev.new) self.new) }
        ensures shows { D.tells → (given : ℕ × ℕ → List ℕ) → Shows (D.disk dev.old).files self.old given → given (place_of self.old) ≡ bytes.now → OnOk result (Shows (D.disk dev.new).files self.new given) }
        ensures crash { D.tells → Effect (IsData (names_of self.old.files)) (λ _. Unit {0}) (D.disk dev.old) (D.disk dev.new) }
        ensures cause { HasCause D.disk_faults D.tell_faults dev.old dev.new (IsErr result) }
    {
        append_page(dev, self.name(), self.page, bytes)?;
        self.page += 1;
        Ok(())
    }

    // Writes the next page, which is the last one of its file.
    fn put_last<D: Device>(&mut self, dev: &mut D, bytes: &Page) -> Result<(), Failed>
        requires next { self.old.whole < length self.old.files }
        requires last { (d : File) → slice_get self.old.files self.old.whole ≡ Some d → d.pages ≡ self.old.page + 1 }
        requires stands { D.tells → IsFilling (D.disk dev.old) self.old }
        ensures next { OnOk result (self.new ≡ record self.old { whole = self.old.whole + 1; page = 0 }) }
        ensures stands { D.tells → OnOk result (IsFilling (D.disk dev.new) self.new) }
        ensures shows { D.tells → (given : ℕ × ℕ → List ℕ) → Shows (D.disk dev.old).files self.old given → given (place_of self.old) ≡ bytes.now → OnOk result (Shows (D.disk dev.new).files self.new given) }
        ensures crash { D.tells → Effect (IsData (names_of self.old.files)) (λ _. Unit {0}) (D.disk dev.old) (D.disk dev.new) }
        ensures cause { HasCause D.disk_faults D.tell_faults dev.old dev.new (IsErr result) }
    {
        append_last(dev, self.name(), self.page, bytes)?;
        self.whole += 1;
        self.page = 0;
        Ok(())
    }

    /// Adds the next page. Not all pages are there. The last page of a file makes the file durable. A crash may leave anything in the data files. After `Failed` the value is no longer used.
    pub fn push<D: Device>(&mut self, dev: &mut D, bytes: &Page) -> Result<(), Failed>
        requires next { self.old.whole < length self.old.files }
        requires stands { D.tells → IsFilling (D.disk dev.old) self.old }
        ensures next { OnOk result (self.new ≡ one_more self.old) }
        ensures stands { D.tells → OnOk result (IsFilling (D.disk dev.new) self.new) }
        ensures shows { D.tells → (given : ℕ × ℕ → List ℕ) → Shows (D.disk dev.old).files self.old given → given (place_of self.old) ≡ bytes.now → OnOk result (Shows (D.disk dev.new).files self.new given) }
        ensures crash { D.tells → Effect (IsData (names_of self.old.files)) (λ _. Unit {0}) (D.disk dev.old) (D.disk dev.new) }
        ensures cause { HasCause D.disk_faults D.tell_faults dev.old dev.new (IsErr result) }
    {
        let pages = self.pages();
        if self.page + 1 < pages {
            return self.put(dev, bytes);
        }
        self.put_last(dev, bytes)
    }
}
