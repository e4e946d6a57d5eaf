//! The filegroups of a database.

ghost use Rattle.std.specs.Prelude.{◌≡◌, ℕ, ◌<◌, ◌≤◌, Some, None, IsSome, IfSome, IfOk, OnOk, OnErr, ◌↔◌, IsTrue, MatchOption, IsErrOf};
ghost use Rattle.std.specs.Option.{option_copied};
ghost use Rattle.bk_groups.specs.Groups.{AreFiles, HasExtent, IsCell, IsFreeCell, LiesIn, place_of, group_of, fresh_extents, new_space, with_touched};
ghost use Rattle.bk_groups.specs.Changes.{SetsPlace, AddsTable};
ghost use Rattle.bk_groups.specs.declared.error.PlaceError.TheVariants.{Full};

use crate::error::PlaceError;
use crate::file_space::FileSpace;
use crate::files::{
    file_spaces, first_free, fresh_of, give_cell_back, has_extent_in, is_free_cell, take_cell,
    touch_extent,
};
use bk_ids::Place;
use bk_world::FileSpec;
use std::alloc::{AllocError, Global};
use std::collections::BTreeMap;
use std::marker::Model;

/// The data files of a database by filegroup, the filegroup of each table, and the place of each row: its cell, which no
/// other row has.
pub struct Groups {
    files: Vec<FileSpace>,
    tables: BTreeMap<u32, u8>,
    places: BTreeMap<(u32, u64), Place>,
}

impl Drop for Groups {
    fn drop(self) {
        let Groups {
            files: _,
            tables: _,
            places: _,
        } = self;
    }
}

impl Model for Groups {
    ghost use Rattle.bk_groups.specs.Groups.{Space};
    ghost use Rattle.bk_groups.specs.Sound.{rooms_of, IsSound};

    ghost Value = { Space };

    ghost view = { λ groups. record { rooms = rooms_of groups.files.items; tables = groups.tables.entries; places = groups.places.entries } };

    ghost invariant = { λ groups. IsSound groups.files.items groups.places.entries };
}

impl Groups {
    /// The files of a database, numbered 1, 2, .. in their order, each with at most 4,096 extents. There is no table and
    /// no row.
    pub fn new(alloc: Global, files: &[FileSpec]) -> Result<Self, AllocError>
        requires { AreFiles files.now }
        ensures { IfOk result (λ groups. groups ≡ new_space files.now) }
    {
        Ok(Groups {
            files: file_spaces(alloc, files)?,
            tables: BTreeMap::new(alloc),
            places: BTreeMap::new(alloc),
        })
    }

    /// Adds a table of a filegroup. Where there is no memory, nothing changes.
    pub fn add_table(&mut self, table: u32, group: u8) -> Result<(), AllocError>
        requires { group_of self.old table ≡ None }
        ensures ok { OnOk result (AddsTable self.old self.new table group) }
        ensures err { OnErr result (self.new ≡ self.old) }
    {
        self.tables.insert(table, group)?;
        Ok(())
    }

    /// The filegroup of a table, if there is such a table.
    pub fn group(&self, table: u32) -> Option<u8>
        ensures { result ≡ group_of self.now table }
    {
        self.tables.get(&table).copied()
    }

    /// Gives a free cell of its table's filegroup to a row that has none.
    ///
    /// `Full` is answered exactly where no cell of the filegroup is free. After an error nothing has changed.
    pub fn place(&mut self, table: u32, key: u64) -> Result<Place, PlaceError>
        requires table { IsSome (group_of self.old table) }
        requires none { place_of self.old table key ≡ None }
        ensures places { IfOk result (λ at. SetsPlace self.old self.new table key (Some at)) }
        ensures free { IfOk result (λ at. IsFreeCell self.old at) }
        ensures group { IfOk result (λ at. IfSome (group_of self.old table) (λ group. LiesIn self.old.rooms group at)) }
        ensures full { IsErrOf result PlaceError.Full → IfSome (group_of self.old table) (λ group. (at : Place) → LiesIn self.old.rooms group at → ¬ IsFreeCell self.old at) }
        ensures err { OnErr result (self.new ≡ self.old) }
    {
        let Some(at) = self.free_cell(table) else {
            return Err(PlaceError::Full);
        };
        self.put(table, key, &at)?;
        Ok(at)
    }

    /// A free cell of a table's filegroup, or `None` exactly where no cell of it is free.
    pub fn free_cell(&self, table: u32) -> Option<Place>
        requires { IsSome (group_of self.now table) }
        ensures { MatchOption result
            (IfSome (group_of self.now table) (λ group. (at : Place) → LiesIn self.now.rooms group at → ¬ IsFreeCell self.now at))
            (λ at. IsFreeCell self.now at × IfSome (group_of self.now table) (λ group. LiesIn self.now.rooms group at)) }
    {
        let group = self.group(table)?;
        first_free(&self.files, group)
    }

    /// Whether a place is a cell of the files that no row has.
    pub fn is_free(&self, at: &Place) -> bool
        ensures { IsTrue result ↔ (IsCell self.now.rooms at.now × IsFreeCell self.now at.now) }
    {
        is_free_cell(&self.files, at)
    }

    /// Notes that a row, which has no place, lies in a free cell. Where there is no memory, nothing changes.
    pub fn put(&mut self, table: u32, key: u64, at: &Place) -> Result<(), AllocError>
        requires none { place_of self.old table key ≡ None }
        requires cell { IsCell self.old.rooms at.now }
        requires free { IsFreeCell self.old at.now }
        ensures ok { OnOk result (SetsPlace self.old self.new table key (Some at.now)) }
        ensures err { OnErr result (self.new ≡ self.old) }
    {
        self.places.insert((table, key), *at)?;
        take_cell(&mut self.files, at);
        Ok(())
    }

    /// The place of a row, if it has one.
    pub fn find(&self, table: u32, key: u64) -> Option<Place>
        ensures { result ≡ place_of self.now table key }
    {
        self.places.get(&(table, key)).copied()
    }

    /// Ends the place of a row, which must have one: its cell is free.
    pub fn free(&mut self, table: u32, key: u64)
        requires { IsSome (place_of self.old table key) }
        ensures { SetsPlace self.old self.new table key None }
    {
        match self.places.remove(&(table, key)) {
            Some(at) => give_cell_back(&mut self.files, &at),
            None => unreachable!(),
        }
    }

    /// Whether there is an extent. Files and extents count from 1.
    pub fn has_extent(&self, file: u16, extent: u32) -> bool
        ensures { IsTrue result ↔ HasExtent self.now.rooms file extent }
    {
        has_extent_in(&self.files, file, extent)
    }

    /// Notes that an extent was touched. Files and extents count from 1.
    pub fn touch(&mut self, file: u16, extent: u32)
        requires { HasExtent self.old.rooms file extent }
        ensures rooms { self.new.rooms ≡ with_touched self.old.rooms file extent }
        ensures tables { self.new.tables ≡ self.old.tables }
        ensures places { self.new.places ≡ self.old.places }
    {
        touch_extent(&mut self.files, file, extent);
    }

    /// How many extents of a filegroup were never touched.
    pub fn fresh(&self, group: u8) -> u32
        ensures { result ≡ fresh_extents self.now.rooms group }
    {
        fresh_of(&self.files, group)
    }
}
