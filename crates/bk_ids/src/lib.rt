//! What the other crates name things by: GUIDs, digests, log sequence numbers, recovery paths, places, names and other texts.
#![tactic(auto)]

mod description;
mod digest;
mod guid;
mod name;
mod path;
mod record;
mod sequence;
mod slot;
mod text;
mod unit;
mod value;

pub use description::{DESCRIPTION_BYTES, Description};
pub use digest::Digest;
pub use guid::Guid;
pub use name::{Name, NameError};
pub use path::{Branch, Lsn, Path};
pub use record::{Body, CellImage, ExtentId, Mark, Place, Rec, RecoveryModel};
pub use sequence::Sequence;
pub use slot::Slot;
pub use text::Text;
pub use unit::UnitId;
pub use value::{VALUE_BYTES, Value};
