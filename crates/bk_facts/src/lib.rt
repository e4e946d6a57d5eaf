//! What a database's note holds before that of the layer above: its latest checkpoint, and its data files. Facts have one spelling.
#![tactic(auto)]

mod facts;
mod reading;
mod writing;

pub use facts::{DataFile, Facts};
pub use reading::read_facts;
pub use writing::spell_note;
