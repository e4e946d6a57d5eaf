// The parts of a database that say nothing of a device.
ghost use Rattle.std.specs.Prelude.{◌≡◌, ◌<◌, [], IfOk, length, slice_index_or};
ghost use Rattle.bk_paged.specs.Names.{pages_in, paths_of};

use bk_facts::DataFile;
use bk_ids::Text;
use bk_pool::Pool;
use std::alloc::{AllocError, Global};

/// The paths of data files.
pub fn copy_paths(alloc: Global, files: &[DataFile]) -> Result<Vec<Text>, AllocError>
    ensures { IfOk result (λ paths. paths.items ≡ paths_of files.now) }
{
    let mut paths = Vec::new(alloc);
    for file in files {
        paths.push(file.path.copy(alloc)?)?;
    }
    Ok(paths)
}

/// How many pages the data file of a number has; 0 where there is none.
pub fn pages_in(files: &[DataFile], file: u16) -> u32
    ensures { result ≡ pages_in files.now file }
{
    let Some(i) = usize::from(file).checked_sub(1) else {
        return 0;
    };
    match files.get(i) {
        Some(file) => file.pages,
        None => 0,
    }
}

// A copy of a page.
fn copy_page(page: &[u8; 8192]) -> [u8; 8192]
    ensures page { result ≡ page.now }
    ensures whole { length page.now ≡ 8192 }
{
    *page
}

// A copy of the page in a frame.
pub fn copy_frame(pool: &Pool, i: usize) -> [u8; 8192]
    requires { i < length pool.now.frames }
    ensures page { result ≡ slice_index_or pool.now.frames i [] }
    ensures whole { length result ≡ 8192 }
{
    copy_page(pool.frame(i))
}
