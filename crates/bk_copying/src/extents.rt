// Which data extents a database has.
ghost use Rattle.std.specs.Prelude.{◌≡◌, ◌<◌, ◌^◌, ◌++◌, length, IfOk, OnOk};
ghost use Rattle.std.specs.List.{All};
ghost use Rattle.bk_copying.specs.Extents.{HasExtent, IdsRise, extent_count, extents_of, extents_to};

use bk_facts::DataFile;
use bk_ids::ExtentId;
use bk_paged::pages_in;
use std::alloc::{AllocError, Global};

// A data file has at most so many data extents.
const MOST_EXTENTS: u32 = 4096;

// At most so many data files are numbered.
const MOST_FILES: usize = 65_535;

// How many data extents so many pages are, behind the extent of the file's header.
fn count_of(pages: u32) -> u32
    ensures { result ≡ extent_count pages }
{
    (pages / 8).saturating_sub(1).min(MOST_EXTENTS)
}

// Adds the data extents of a file that has so many pages.
fn add_extents(extents: &mut Vec<ExtentId>, file: u16, pages: u32) -> Result<(), AllocError>
    ensures { OnOk result (extents.new.items ≡ extents.old.items ++ extents_to file (extent_count pages)) }
{
    for i in 0..count_of(pages) {
        extents.push(ExtentId {
            file,
            extent: i + 1,
        })?;
    }
    Ok(())
}

/// The data extents of these files, by file and number: all but those of the files' headers.
pub fn data_extents(alloc: Global, files: &[DataFile]) -> Result<Vec<ExtentId>, AllocError>
    ensures extents { IfOk result (λ extents. extents.items ≡ extents_of files.now) }
    ensures there { IfOk result (λ extents. All (HasExtent files.now) extents.items) }
    ensures rise { IfOk result (λ extents. IdsRise extents.items) }
    ensures few { IfOk result (λ extents. length extents.items < 2 ^ 28) }
{
    let mut extents = Vec::new(alloc);
    for i in 0..files.len().min(MOST_FILES) {
        let file = (i + 1) as u16;
        add_extents(&mut extents, file, pages_in(files, file))?;
    }
    Ok(extents)
}
