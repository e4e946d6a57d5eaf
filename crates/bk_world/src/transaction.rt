//! Open transactions.

ghost use Rattle.std.specs.Prelude.{◌≡◌, IfOk};

use bk_ids::{Description, Lsn, Mark};
use std::alloc::{AllocError, Global};

/// An open transaction. Its writes are those that are pending in the log.
#[derive(Debug, Drop)]
pub struct Open {
    /// The session in which it began, from 1.
    pub session: u8,
    /// The number of its first log record.
    pub begin: Lsn,
    /// The mark that its commit gets.
    pub mark: Option<Mark>,
}

// A description of its own.
fn copy_description(
    alloc: Global,
    description: &Option<Description>,
) -> Result<Option<Description>, AllocError>
    ensures { IfOk result (λ copy. copy ≡ description.now) }
{
    match description {
        Some(text) => Ok(Some(text.copy(alloc)?)),
        None => Ok(None),
    }
}

// A mark of its own.
fn copy_mark(alloc: Global, mark: &Option<Mark>) -> Result<Option<Mark>, AllocError>
    ensures { IfOk result (λ copy. copy ≡ mark.now) }
{
    let Some(mark) = mark else {
        return Ok(None);
    };
    let name = mark.name.copy(alloc)?;
    let description = copy_description(alloc, &mark.description)?;
    Ok(Some(Mark { name, description }))
}

impl Open {
    ghost use Rattle.std.specs.Prelude.{◌≡◌, IfOk};

    /// A transaction of its own with the same fields.
    pub fn copy(&self, alloc: Global) -> Result<Self, AllocError>
        ensures { IfOk result (λ copy. copy ≡ self.now) }
    {
        let mark = copy_mark(alloc, &self.mark)?;
        Ok(Open {
            session: self.session,
            begin: self.begin,
            mark,
        })
    }
}
