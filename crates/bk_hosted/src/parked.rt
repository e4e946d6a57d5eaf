// The points of a database that is being restored.
ghost use Rattle.std.specs.Prelude.{◌≡◌, IfOk};
ghost use Rattle.bk_hosted.specs.Hosted.{parked_points};
ghost use Rattle.bk_machine.specs.Acts.{file_units};

use bk_ids::{Sequence, UnitId};
use bk_points::Points;
use bk_world::{Header, HeaderFile, State, Status, Unit};
use std::alloc::{AllocError, Global};

/// Each file of a set, in this state. An error says that memory was wanting.
pub fn units_of(alloc: Global, files: &[HeaderFile], state: State) -> Result<Vec<Unit>, AllocError>
    ensures { IfOk result (λ units. units.items ≡ file_units state files.now) }
{
    let mut units = Vec::new(alloc);
    for file in files {
        units.push(Unit {
            id: UnitId::File(file.spec.number),
            state,
        })?;
    }
    Ok(units)
}

/// The points of a database whose place the set with this header takes: its files are Bad. An error says that memory was wanting.
pub fn parked_points(alloc: Global, header: &Header) -> Result<Points, AllocError>
    ensures { IfOk result (λ points. points ≡ parked_points header.now) }
{
    let units = units_of(alloc, header.files.as_slice(), State::Bad)?;
    Ok(Points {
        next_checkpoint: 0,
        next_kept: 0,
        archive: header.last,
        kept: header.last,
        checkpoint: header.last,
        chain: false,
        began: false,
        base: None,
        status: Status::Down,
        units: Sequence::new(units),
    })
}
