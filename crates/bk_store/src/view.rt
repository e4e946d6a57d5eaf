// Records as they are taken in.
ghost use Rattle.std.specs.Prelude.{◌≡◌, IfSome, IsNone, Some};
ghost use Rattle.bk_record.specs.View.{body_of, mark_of, place_of, record_of};
ghost use Rattle.bk_store.specs.Viewing.{IsLoad};

use bk_ids::{Body, Mark, Place, Rec};
use bk_record::{BodyRef, MarkRef, PlaceRef, RecRef};

// A mark, over its own bytes.
fn mark_view(mark: &Mark) -> MarkRef<'_>
    ensures { mark_of (Some result) ≡ Some mark.now }
{
    let description = match &mark.description {
        Some(text) => Some(text.as_str()),
        None => None,
    };
    MarkRef {
        name: mark.name.as_str(),
        description,
    }
}

// The mark of a commit, if it has one.
fn marks_view(mark: &Option<Mark>) -> Option<MarkRef<'_>>
    ensures { mark_of result ≡ mark.now }
{
    match mark {
        Some(mark) => Some(mark_view(mark)),
        None => None,
    }
}

// The place of a cell, as a record spells it.
fn place_view(place: &Place) -> PlaceRef
    ensures { place_of result ≡ place.now }
{
    PlaceRef {
        file: place.file,
        page: place.page,
        slot: place.slot.get(),
    }
}

// What a record says, over its own bytes; that of a minimal load alone isn't shown.
fn body_view(body: &Body) -> Option<BodyRef<'_>>
    ensures some { IfSome result (λ view. body_of view ≡ body.now) }
    ensures none { IsNone result → IsLoad body.now }
{
    let view = match body {
        Body::Database {
            time,
            family,
            branch,
        } => BodyRef::Database {
            time: *time,
            family: *family,
            branch: *branch,
        },
        Body::Table {
            time,
            number,
            name,
            group,
        } => BodyRef::Table {
            time: *time,
            number: *number,
            name: name.as_str(),
            group: *group,
        },
        Body::Begin => BodyRef::Begin,
        Body::Write {
            place,
            before,
            after,
        } => BodyRef::Write {
            place: place_view(place),
            before: &before.bytes,
            after: &after.bytes,
        },
        Body::Commit { time, mark } => BodyRef::Commit {
            time: *time,
            mark: marks_view(mark),
        },
        Body::RollbackEnd => BodyRef::RollbackEnd,
        Body::Compensation {
            place,
            cell,
            undone,
        } => BodyRef::Compensation {
            place: place_view(place),
            cell: &cell.bytes,
            undone: *undone,
        },
        Body::Checkpoint { time } => BodyRef::Checkpoint { time: *time },
        Body::Stamp { time, set } => BodyRef::Stamp {
            time: *time,
            set: *set,
        },
        Body::Model { time, model } => BodyRef::Model {
            time: *time,
            model: *model,
        },
        Body::Bulk { .. } => return None,
        Body::Recovery { branch } => BodyRef::Recovery { branch: *branch },
    };
    Some(view)
}

/// A record over its own bytes; that of a minimal load alone isn't shown.
pub fn view(r: &Rec) -> Option<RecRef<'_>>
    ensures some { IfSome result (λ view. record_of view ≡ r.now) }
    ensures none { IsNone result → IsLoad r.now.body }
{
    let body = body_view(&r.body)?;
    Some(RecRef {
        lsn: r.lsn,
        begin: r.begin,
        body,
    })
}
