//! Whether a header keeps its conditions.

ghost use Rattle.std.specs.Prelude.{◌≡◌, true};
ghost use Rattle.std.specs.List.{list_all};
ghost use Rattle.bk_header.specs.Conditions.{KeepsConditions};
ghost use Rattle.bk_header.specs.Keeping.{has_path, is_expiry, keeps_all, keeps_lists, keeps_texts, keeps_times, keeps_what};

use crate::fixed::Range;
use crate::making::{LAST_TIME, are_data_files, has_base, is_in_order, is_recovery_path};
use bk_world::{Header, HeaderFile};

fn is_file_path(path: &str) -> bool
    ensures { result ≡ has_path path.now }
{
    0 < path.len() && path.len() <= 100
}

fn have_paths(files: &[HeaderFile]) -> bool
    ensures { result ≡ list_all (λ file. has_path file.spec.path) files.now }
{
    files
        .iter()
        .all(|file| is_file_path(file.spec.path.as_str()))
}

fn is_expiry_time(expiry: Option<u64>) -> bool
    ensures { result ≡ is_expiry expiry }
{
    match expiry {
        Some(time) => time <= LAST_TIME,
        None => true,
    }
}

fn what_keeps(header: &Header) -> bool
    ensures { result ≡ keeps_what header.now }
{
    let range = Range {
        first: header.first,
        checkpoint: header.checkpoint,
        last: header.last,
        database_backup: header.database_backup,
    };
    header.version == 1 && is_in_order(header.kind, range) && has_base(header.kind, header.base)
}

fn times_keep(header: &Header) -> bool
    ensures { result ≡ keeps_times header.now }
{
    header.start <= LAST_TIME && header.finish <= LAST_TIME && is_expiry_time(header.expiry)
}

fn lists_keep(header: &Header) -> bool
    ensures { result ≡ keeps_lists header.now }
{
    let groups = header.groups.as_slice().len();
    is_recovery_path(header.path.as_slice(), header.last)
        && 0 < groups
        && groups <= 8
        && are_data_files(header.files.as_slice(), groups)
}

fn texts_keep(header: &Header) -> bool
    ensures { result ≡ keeps_texts header.now }
{
    header.name.as_str().len() <= 65535
        && have_paths(header.files.as_slice())
        && is_file_path(header.log_path.as_str())
}

fn is_kept(header: &Header) -> bool
    ensures { result ≡ keeps_all header.now }
{
    what_keeps(header) && times_keep(header) && lists_keep(header) && texts_keep(header)
}

/// Whether a header keeps the conditions beside its types under which it has a spelling.
pub fn keeps(header: &Header) -> bool
    ensures kept { result ≡ true → KeepsConditions header.now }
    ensures found { KeepsConditions header.now → result ≡ true }
{
    is_kept(header)
}
