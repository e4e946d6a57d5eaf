// The device's names of a database's files.
ghost use Rattle.std.specs.Prelude.{◌≡◌, ◌<◌, ℕ, List, Some, None, IfOk, MatchBool, MatchOption, IsTrue, ◌↔◌, length, map, slice_get};
ghost use Rattle.std.specs.String.{string_bytes};
ghost use Rattle.bk_bytes.specs.Field.{AreBytes};
ghost use Rattle.bk_side.specs.Names.{data_file, side_file, name_of, AreDifferent, IsBefore};

use bk_ids::Text;
use std::alloc::{AllocError, Global};

/// The device's name of the data file at a path: `p-` and the path's bytes in lower-case hexadecimal.
#[tactic(auto, unfolding(crate::specs::Names::data_file))]
pub fn data_file(alloc: Global, path: &str) -> Result<String, AllocError>
    ensures { IfOk result (λ name. string_bytes name ≡ data_file path.now) }
{
    let digits = hex::encode(alloc, path)?;
    let mut name = String::from_str(alloc, "p-")?;
    name.push_str(&digits)?;
    Ok(name)
}

/// The device's name of the side file of a database: `b-` and the database's number.
#[tactic(auto, unfolding(crate::specs::Names::side_file))]
pub fn side_file(alloc: Global, db: u32) -> Result<String, AllocError>
    ensures { IfOk result (λ name. string_bytes name ≡ side_file db) }
{
    format!(in alloc; "b-{db}")
}

/// Different paths have different names, and no data file has the name of a side file.
pub fn name_law()
    ensures different { (path other : List ℕ) → AreBytes path → AreBytes other → data_file path ≡ data_file other → path ≡ other }
    ensures apart { (path : List ℕ) (db : ℕ) → data_file path ≡ side_file db → ⊥ }
{}

/// The names of the data files at some paths, in their order.
pub fn data_files(alloc: Global, paths: &[Text]) -> Result<Vec<Text>, AllocError>
    ensures { IfOk result (λ names. names.items ≡ map data_file paths.now) }
{
    let mut names = Vec::new(alloc);
    for path in paths {
        names.push(Text::new(data_file(alloc, path.as_str())?))?;
    }
    Ok(names)
}

// The name of the data file of a number, if there is one.
pub fn name_of(names: &[Text], file: u16) -> Option<&str>
    ensures { MatchOption result (name_of names.now file ≡ None) (λ name. name_of names.now file ≡ Some name.now) }
{
    let i = usize::from(file).checked_sub(1)?;
    Some(names.get(i)?.as_str())
}

/// Whether no two names are the same.
pub fn are_different(names: &[Text]) -> bool
    ensures { IsTrue result ↔ AreDifferent names.now }
{
    for i in 0..names.len() {
        if has_before(names, i) {
            return false;
        }
    }
    true
}

// Whether a name stands before its place too.
fn has_before(names: &[Text], i: usize) -> bool
    requires { i < length names.now }
    ensures { MatchBool result (IsBefore names.now i) ((j : ℕ) (name : List ℕ) → j < i → slice_get names.now j ≡ Some name → slice_get names.now i ≡ Some name → ⊥) }
{
    for j in 0..i {
        if names[j].as_str() == names[i].as_str() {
            return true;
        }
    }
    false
}
