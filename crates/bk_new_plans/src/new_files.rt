//! The data files of a new database: how large they are, and how they count.

ghost use Rattle.std.specs.Prelude.{◌≡◌, ◌+◌, ◌<◌, ◌≤◌, ◌∷◌, ◌++◌, [], max, min, nat_lt, true, length, map, IfOk, OnOk};
ghost use Rattle.std.specs.List.{list_all, sum_by};
ghost use Rattle.bk_machine.specs.Checks as checks;
ghost use Rattle.bk_machine.specs.Files as limits;
ghost use Rattle.bk_machine.specs.statements.CreateDatabase as create;
ghost use Rattle.bk_new_plans.specs.NewFiles.{capped};

use bk_ids::Text;
use bk_items::{NewFile, NewGroup, Size, SizeUnit};
use bk_plans::name_in;
use bk_world::FileSpec;
use std::alloc::{AllocError, Global};

// How many data files a database has at most.
const MOST_FILES: usize = 16;

// The first number of extents that no database has.
const TOO_MANY_EXTENTS: u64 = 4097;

// The extents of 64 KB that a size takes, or some number above 4,096 where it takes more.
fn size_extents(size: Size) -> u64
    ensures { min result 4097 ≡ min (create.size_extents size.count size.unit) 4097 }
{
    // 4,096 extents are 262,144 KB. More of any unit is too much.
    let count = size.count.min(262_145);
    match size.unit {
        Some(SizeUnit::Kb) => (count + 63) / 64,
        Some(SizeUnit::Gb) => 16_384 * count,
        Some(SizeUnit::Extents) => count,
        Some(SizeUnit::Mb) | None => 16 * count,
    }
}

// The extents of a file, at most 4,097.
fn extents(size: Option<Size>) -> u32
    ensures { result ≡ min (create.extents_of size) 4097 }
{
    match size {
        Some(size) => size_extents(size).max(1).min(TOO_MANY_EXTENTS) as u32,
        None => 128,
    }
}

// The extents of some files, all together.
pub(crate) fn extents_in(files: &[FileSpec]) -> u64
    requires { length files.now ≤ 16 }
    ensures { result ≡ limits.extents_in files.now }
{
    files.iter().map(|file| u64::from(file.extents)).sum()
}

// Whether some filegroups have more files than these.
fn have_more(groups: &[NewGroup], most: usize) -> bool
    ensures { result ≡ nat_lt most (sum_by (λ g. length g.files) groups.now) }
{
    let mut left = most;
    for group in groups {
        let count = group.files.as_slice().len();
        if count > left {
            return true;
        }
        left -= count;
    }
    false
}

// Whether PRIMARY, with these files or with one where none is named, and other filegroups have more than 16 files.
pub(crate) fn has_too_many_files(primary: &[NewFile], groups: &[NewGroup]) -> bool
    ensures { result ≡ nat_lt 16 (max 1 (length primary.now) + sum_by (λ g. length g.files) groups.now) }
{
    let own = primary.len().max(1);
    own > MOST_FILES || have_more(groups, MOST_FILES - own)
}

// One file more, under the next number, with at most 4,097 extents.
fn push_file(
    alloc: Global,
    files: &mut Vec<FileSpec>,
    group: u8,
    file: &NewFile,
) -> Result<(), AllocError>
    requires few { length files.old.items < 16 }
    requires named { create.is_named_file file.now ≡ true }
    ensures { OnOk result (files.new.items ≡ files.old.items ++ capped (create.file_spec (length files.old.items + 1) group file.now) ∷ []) }
{
    let number = files.len() as u16 + 1;
    let name = name_in(alloc, &file.name)?;
    let path = file.path.copy(alloc)?;
    files.push(FileSpec {
        number,
        group,
        extents: extents(file.size),
        name,
        path,
    })?;
    Ok(())
}

// The files of one filegroup more.
fn push_files(
    alloc: Global,
    files: &mut Vec<FileSpec>,
    group: u8,
    asked: &[NewFile],
) -> Result<(), AllocError>
    requires few { length files.old.items + length asked.now ≤ 16 }
    requires named { list_all create.is_named_file asked.now ≡ true }
    ensures { OnOk result (files.new.items ≡ files.old.items ++ map capped (create.files_in (length files.old.items + 1) group asked.now)) }
{
    for file in asked {
        push_file(alloc, files, group, file)?;
    }
    Ok(())
}

// The files of some filegroups more, the first of which has number 1.
fn push_groups(
    alloc: Global,
    files: &mut Vec<FileSpec>,
    groups: &[NewGroup],
) -> Result<(), AllocError>
    requires few { length files.old.items + sum_by (λ g. length g.files) groups.now ≤ 16 }
    requires few_groups { length groups.now < 8 }
    requires named { list_all create.is_named_group groups.now ≡ true }
    ensures { OnOk result (files.new.items ≡ files.old.items ++ map capped (create.files_of (length files.old.items + 1) 1 groups.now)) }
{
    for (i, group) in groups.iter().enumerate() {
        push_files(alloc, files, i as u8 + 1, group.files.as_slice())?;
    }
    Ok(())
}

// The one file of PRIMARY where none is named.
fn default_files(alloc: Global, name: &Text) -> Result<Vec<FileSpec>, AllocError>
    requires { checks.is_name name.now ≡ true }
    ensures { IfOk result (λ files. files.items ≡ map capped (create.files_in 1 0 (create.primary_files name.now []))) }
{
    let file = FileSpec {
        number: 1,
        group: 0,
        extents: 128,
        name: name_in(alloc, name)?,
        path: name.copy(alloc)?,
    };
    Ok(vec![in alloc; file]?)
}

// The files of PRIMARY.
fn primary_files(
    alloc: Global,
    name: &Text,
    primary: &[NewFile],
) -> Result<Vec<FileSpec>, AllocError>
    requires few { length primary.now ≤ 16 }
    requires database { checks.is_name name.now ≡ true }
    requires named { list_all create.is_named_file primary.now ≡ true }
    ensures { IfOk result (λ files. files.items ≡ map capped (create.files_in 1 0 (create.primary_files name.now primary.now))) }
{
    if primary.is_empty() {
        return default_files(alloc, name);
    }
    let mut files = Vec::new(alloc);
    push_files(alloc, &mut files, 0, primary)?;
    Ok(files)
}

// The data files of a new database, PRIMARY's first, each with at most 4,097 extents.
#[tactic(auto, unfolding(bk_machine::specs::statements::CreateDatabase::new_files))]
pub(crate) fn new_files(
    alloc: Global,
    name: &Text,
    primary: &[NewFile],
    groups: &[NewGroup],
) -> Result<Vec<FileSpec>, AllocError>
    requires few { max 1 (length primary.now) + sum_by (λ g. length g.files) groups.now ≤ 16 }
    requires few_groups { length groups.now < 8 }
    requires database { checks.is_name name.now ≡ true }
    requires named { list_all create.is_named_file primary.now ≡ true }
    requires groups_named { list_all create.is_named_group groups.now ≡ true }
    ensures { IfOk result (λ files. files.items ≡ map capped (create.new_files name.now primary.now groups.now)) }
{
    let mut files = primary_files(alloc, name, primary)?;
    push_groups(alloc, &mut files, groups)?;
    Ok(files)
}
