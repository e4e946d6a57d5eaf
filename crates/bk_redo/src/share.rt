//! How pages are shared among workers.

ghost use Rattle.std.specs.Prelude.{◌≡◌, ◌+◌, ◌-◌, ◌^◌, ◌<◌, ◌≤◌};

// The share of some workers: their numbers, the first page, and how many pages each of them gets, if not one more.
#[derive(Clone, Copy)]
pub(crate) struct Share {
    pub worker: usize,
    pub workers: usize,
    pub first: usize,
    pub least: usize,
}

impl Share {
    ghost use Rattle.bk_redo.specs.Shares.{IsShare};

    // The share of so many workers of so many pages. There are no more workers than pages, but one.
    pub(crate) fn whole(pages: usize, workers: usize) -> Share
        requires { 0 < workers }
        ensures share { IsShare result pages }
        ensures first { result.first ≡ 0 }
    {
        let workers = workers.min(pages).max(1);
        Share {
            worker: 0,
            workers,
            first: 0,
            least: pages / workers,
        }
    }

    // The shares of two halves of at least two workers, who share so many pages.
    pub(crate) fn halves(self, count: usize) -> (Share, Share)
        requires share { IsShare self count }
        requires two { 1 < self.workers }
        requires room { self.first + count < 2 ^ 64 }
        ensures front { IsShare result.0 (result.1.first - self.first) }
        ensures back { IsShare result.1 (self.first + count - result.1.first) }
        ensures first { result.0.first ≡ self.first }
        ensures second { (self.first ≤ result.1.first) × (result.1.first ≤ self.first + count) }
        ensures workers { result.0.workers + result.1.workers ≡ self.workers }
        ensures numbers { (result.0.worker ≡ self.worker) × (result.1.worker ≡ self.worker + result.0.workers) }
    {
        let half = self.workers / 2;
        let more = count - self.workers * self.least;
        let front = half * self.least + half.min(more);
        let ahead = Share {
            workers: half,
            ..self
        };
        let behind = Share {
            worker: self.worker + half,
            workers: self.workers - half,
            first: self.first + front,
            least: self.least,
        };
        (ahead, behind)
    }
}
