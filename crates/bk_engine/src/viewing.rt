// What is seen of an instance: over such views its statements are planned.
ghost use Rattle.std.specs.Prelude.{◌≡◌, ◌<◌, List, Some, length, option_map, slice_get, IfOk, IfSome};
ghost use Rattle.std.specs.List.{AllZip};
ghost use Rattle.bk_hosted.specs.Hosted.{Hosted};
ghost use Rattle.bk_hosting.specs.declared.hosting.State.{State as KeptState};
ghost use Rattle.bk_hosting.specs.Hosting.{IsReady as AreReady};
ghost use Rattle.bk_kept.specs.Keeps.{Sees};
ghost use Rattle.bk_machine.specs.World.{World};
ghost use Rattle.bk_engine.specs.Stands.{IsReady};
ghost use Rattle.bk_engine.specs.Viewing.{AreEnds, AreInMemory, IsEndOf, IsSeenAs, Remembers, seen_by, shown_by};

use crate::engine::Engine;
use bk_hosting::{Hosting, State};
use bk_ids::Lsn;
use bk_kept::{DatabaseView, InstanceView};
use bk_known::DatabaseSpec;
use bk_shown::Shown;
use bk_store::Store;
use std::alloc::{AllocError, Global};

// The end of a database's log, while it is being restored.
fn end_in(state: &State) -> Lsn
    ensures { IfSome state.now.known (λ known. result ≡ known.as_of.from) }
{
    match &state.known {
        Some(known) => known.as_of.from,
        None => 1,
    }
}

// What has that end.
fn end_of(alloc: Global, state: &State) -> Result<Shown, AllocError>
    ensures { IfOk result (IsEndOf state.now) }
{
    Shown::ended(alloc, end_in(state))
}

// One for each database.
fn ends_of(alloc: Global, hosting: &Hosting) -> Result<Vec<Shown>, AllocError>
    ensures { IfOk result (λ ends. AllZip IsEndOf hosting.now.states ends.items) }
{
    let mut ends = Vec::new(alloc);
    for at in 0..hosting.count() {
        ends.push(end_of(alloc, hosting.state(at))?)?;
    }
    Ok(ends)
}

// What is shown of a database's log: by its store, or else its end alone.
fn shown_of<'a>(store: Option<&'a Store>, ended: &'a Shown) -> &'a Shown
    ensures { result.now ≡ shown_by (option_map (λ s. s.now) store.entry) ended.now }
{
    match store {
        Some(store) => store.shown(),
        None => ended,
    }
}

// The view of a database with this description, with these points and open transactions, whose log shows this.
fn joined<'a>(spec: &'a DatabaseSpec, state: &'a State, shown: &'a Shown) -> DatabaseView<'a>
    ensures { result ≡ seen_by spec.now state.now shown.now }
{
    DatabaseView {
        name: &spec.name,
        family: spec.family,
        groups: &spec.storage.groups,
        files: &spec.storage.files,
        log_name: &spec.storage.log_name,
        log_path: &spec.storage.log_path,
        path: &spec.path,
        archive: state.points.archive,
        kept: state.points.kept,
        checkpoint: state.points.checkpoint,
        chain: state.points.chain,
        began: state.points.began,
        base: state.points.base,
        status: &state.points.status,
        units: &state.points.units,
        job: &state.job,
        transactions: &state.transactions,
        shown,
    }
}

// The view of the database at a place. Where a checkpoint is awaited in one that is being restored, which doesn't come there, the call ends as if memory were wanting.
fn view_of<'a>(
    hosting: &'a Hosting,
    at: usize,
    ended: &'a Shown,
) -> Result<DatabaseView<'a>, AllocError>
    requires ready { AreReady hosting.now }
    requires inside { at < length hosting.now.states }
    requires ends { (st : KeptState) → slice_get hosting.now.states at ≡ Some st → IsEndOf st ended.now }
    ensures { IfOk result (λ seen. (hosted : List Hosted) (h : Hosted) → AreInMemory hosting.now hosted → slice_get hosted at ≡ Some h → IsSeenAs h seen) }
{
    let state = hosting.state(at);
    if state.points.next_checkpoint != 0 {
        return Err(AllocError);
    }
    let Some(spec) = hosting.spec(at) else {
        return Err(AllocError);
    };
    Ok(joined(spec, state, shown_of(hosting.store(at), ended)))
}

// The views of all databases, in their order.
fn views_of<'a>(
    alloc: Global,
    hosting: &'a Hosting,
    ends: &'a [Shown],
) -> Result<Vec<DatabaseView<'a>>, AllocError>
    requires ready { AreReady hosting.now }
    requires ends { AllZip IsEndOf hosting.now.states ends.now }
    ensures { IfOk result (λ views. (hosted : List Hosted) → AreInMemory hosting.now hosted → AllZip IsSeenAs hosted views.items) }
{
    let mut views = Vec::new(alloc);
    for at in 0..ends.len() {
        views.push(view_of(hosting, at, &ends[at])?)?;
    }
    Ok(views)
}

impl Engine {
    /// What has the ends of the databases' logs, in their order, and nothing else of them: a view borrows it for those that are being restored.
    pub fn ends(&self, alloc: Global) -> Result<Vec<Shown>, AllocError>
        ensures { IfOk result (λ ends. AreEnds self.now ends.items) }
    {
        ends_of(alloc, &self.hosting)
    }

    /// What is seen of the instance, with what the logs show of the databases that can be used: over it statements are planned. It reads no file.
    ///
    /// Where a checkpoint is awaited in a database that is being restored, which doesn't come there, the call ends as if memory were wanting.
    pub fn view<'a>(
        &'a self,
        alloc: Global,
        ends: &'a [Shown],
    ) -> Result<InstanceView<'a>, AllocError>
        requires ready { IsReady self.now }
        requires ends { AreEnds self.now ends.now }
        ensures sees { IfOk result (λ seen. (w : World) → Remembers self.now w → Sees w seen) }
    {
        let databases = views_of(alloc, &self.hosting, ends)?;
        Ok(InstanceView {
            number: self.hosting.own().number,
            counter: self.drawn,
            session: self.session,
            sessions: &self.sessions,
            databases,
        })
    }
}
