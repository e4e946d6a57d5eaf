// The points of a database that is restored.
use bk_ids::{Sequence, UnitId};
use bk_points::Points;
use bk_world::{Base, Header, State, Status, Unit};
use std::alloc::{AllocError, Global};

// Its one data file, in this state.
fn units(alloc: Global, state: State) -> Result<Sequence<Unit>, AllocError> {
    let unit = Unit {
        id: UnitId::File(1),
        state,
    };
    Ok(Sequence::new(vec![in alloc; unit]?))
}

/// The points of a database whose place a set has taken.
pub(crate) fn parked(alloc: Global, header: &Header) -> Result<Points, AllocError> {
    Ok(Points {
        next_checkpoint: 0,
        next_kept: 0,
        archive: header.last,
        kept: header.last,
        checkpoint: header.last,
        chain: false,
        began: false,
        base: None,
        status: Status::Down,
        units: units(alloc, State::Bad)?,
    })
}

/// The points of one that a set has brought up.
pub(crate) fn brought_up(alloc: Global, header: &Header) -> Result<Points, AllocError> {
    Ok(Points {
        chain: true,
        began: true,
        base: Some(Base {
            set: header.set,
            lsn: header.checkpoint,
        }),
        status: Status::Online,
        units: units(alloc, State::Online)?,
        ..parked(alloc, header)?
    })
}
