//! The items of a script, as the grammar gives them: statements, console lines, and what is neither.
#![tactic(auto)]

mod item;
mod options;
mod rows;

pub use item::{
    Catalog, Marking, MediumQuery, NamedTransaction, NewFile, NewGroup, PageName, RestoredUnits,
    ScriptEntry, ScriptItem, Size, SizeUnit, UnitName,
};
pub use options::{
    BackupOptions, Ending, FileMove, IdleOption, IdleOptions, RestoreOptions, StopMark, Stopping,
};
pub use rows::RowStatement;
