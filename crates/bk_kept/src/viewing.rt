//! Views of what is kept.

ghost use Rattle.std.specs.Prelude.{◌≡◌, IfOk};

use crate::kept::{Database, Kept};
use crate::views::{DatabaseView, InstanceView};
use std::alloc::{AllocError, Global};

impl Database {
    ghost use Rattle.std.specs.Prelude.{◌≡◌};

    /// Its view. It takes no memory.
    pub fn view(&self) -> DatabaseView<'_>
        ensures { result ≡ self.now }
    {
        DatabaseView {
            name: &self.name,
            family: self.family,
            groups: &self.groups,
            files: &self.files,
            log_name: &self.log_name,
            log_path: &self.log_path,
            path: &self.path,
            archive: self.archive,
            kept: self.kept,
            checkpoint: self.checkpoint,
            chain: self.chain,
            began: self.began,
            base: self.base,
            status: &self.status,
            units: &self.units,
            job: &self.job,
            transactions: &self.transactions,
            shown: &self.shown,
        }
    }
}

// The views of some databases.
fn views_of(alloc: Global, databases: &[Database]) -> Result<Vec<DatabaseView<'_>>, AllocError>
    ensures { IfOk result (λ views. views.items ≡ databases.now) }
{
    let mut views = Vec::new(alloc);
    for database in databases {
        views.push(database.view())?;
    }
    Ok(views)
}

impl Kept {
    ghost use Rattle.std.specs.Prelude.{IfOk};
    ghost use Rattle.bk_kept.specs.Views.{IsSeen};

    /// Its view. Its list of databases takes memory.
    pub fn view(&self, alloc: Global) -> Result<InstanceView<'_>, AllocError>
        ensures { IfOk result (IsSeen self.now) }
    {
        let databases = views_of(alloc, &self.databases)?;
        Ok(InstanceView {
            number: self.number,
            counter: self.counter,
            session: self.session,
            sessions: &self.sessions,
            databases,
        })
    }
}
