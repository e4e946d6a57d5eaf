/// Who is told that a worker begins.
pub trait Turn: Send + Sync {
    /// The worker of this number, from 0, is about to redo its first page.
    fn reached(&self, worker: usize);
}

// Nobody is told.
pub(crate) struct Untold;

impl Turn for Untold {
    fn reached(&self, _worker: usize) {}
}
