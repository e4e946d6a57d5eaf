ghost use Rattle.std.specs.Prelude.{◌≡◌, ◌≢◌, ◌<◌, ◌≤◌, ◌⊎◌, ◌++◌, ◌∷◌, [], ℕ, List, Some, filter, nat_lt, ◌↔◌, IsTrue, IfOk, MatchOption};
ghost use Rattle.std.specs.List.{AllByRecursion};
ghost use Rattle.bk_ids.specs.declared.path.Branch.{Branch};
ghost use Rattle.bk_ids.specs.Path.{branch_at, Agree, IsPath, FirstDiffer};

use crate::guid::Guid;
use std::alloc::{AllocError, Global};
use std::marker::Model;

/// A log sequence number: the place of a log record on its recovery path, from 1.
pub type Lsn = u64;

/// One branch of a recovery path: its identity, and the number of its first log record.
#[derive(Clone, Copy, Debug, PartialEq, Eq)]
pub struct Branch {
    /// Its identity.
    pub guid: Guid,
    /// Where it leaves the branch before it, from 1.
    pub start: Lsn,
}

/// A recovery path: the branches that lead to a state of a database, the oldest first. Contracts see the
/// list of them.
#[derive(Debug)]
pub struct Path {
    branches: Vec<Branch>,
}

impl Drop for Path {
    fn drop(self) {
        let Path { branches: _ } = self;
    }
}

impl Model for Path {
    ghost use Rattle.std.specs.Prelude.{List};
    ghost use Rattle.bk_ids.specs.declared.path.Branch.{Branch};

    ghost Value = { List Branch };

    ghost view = { λ path. path.branches.items };
}

impl Path {
    /// The path of these branches.
    pub fn new(branches: Vec<Branch>) -> Self
        ensures { result ≡ branches.items }
    {
        Path { branches }
    }

    /// Its branches, the oldest first.
    pub fn as_slice(&self) -> &[Branch]
        ensures { result.now ≡ self.now }
    {
        self.branches.as_slice()
    }

    /// A path of its own with the same branches.
    pub fn copy(&self, alloc: Global) -> Result<Self, AllocError>
        ensures { IfOk result (λ copy. copy ≡ self.now) }
    {
        let branches = self.branches.to_vec(alloc)?;
        Ok(Path { branches })
    }

    /// The path that goes on with one more branch.
    pub fn grown(&self, alloc: Global, branch: Branch) -> Result<Self, AllocError>
        ensures { IfOk result (λ path. path ≡ self.now ++ branch ∷ []) }
    {
        let mut branches = self.branches.to_vec(alloc)?;
        branches.push(branch)?;
        Ok(Path { branches })
    }

    /// The path without the branches that start at `end` or above.
    pub fn cut(&self, alloc: Global, end: Lsn) -> Result<Self, AllocError>
        ensures { IfOk result (λ path. path ≡ filter (λ b. nat_lt b.start end) self.now) }
    {
        let branches = self.branches.iter().copied();
        let branches = branches.filter(|b| b.start < end).collect(alloc)?;
        Ok(Path { branches })
    }

    /// Its branch at a number, from 1: the last that starts there or below.
    pub fn branch(&self, n: Lsn) -> Guid
        requires path { IsPath self.now }
        requires from_1 { 0 < n }
        ensures { branch_at self.now n ≡ Some result }
    {
        match branch_of(&self.branches, n) {
            Some(guid) => guid,
            None => unreachable!(),
        }
    }

    /// The least number from 1, below both `x` and `y`, at which this path and another aren't on one branch, or none
    /// exactly where they agree up to `x` and `y`.
    pub fn differ(&self, x: Lsn, other: &Path, y: Lsn) -> Option<Lsn>
        ensures { MatchOption result (Agree self.now x other.now y) (FirstDiffer self.now x other.now y) }
    {
        first_differ(&self.branches, x, &other.branches, y)
    }
}

// The branch of a path at a number, if it has one there.
fn branch_of(path: &[Branch], n: Lsn) -> Option<Guid>
    ensures { result ≡ branch_at path.now n }
{
    let mut found = None;
    for branch in path {
        if branch.start <= n {
            found = Some(branch.guid);
        }
    }
    found
}

// Whether two paths are on one branch at a number.
fn are_on_one(path: &[Branch], other: &[Branch], n: Lsn) -> bool
    ensures { IsTrue result ↔ (branch_at path.now n ≡ branch_at other.now n) }
{
    branch_of(path, n) == branch_of(other, n)
}

// `k`, from 1, where it is below `least` and two paths aren't on one branch there, or else `least`.
fn lesser(path: &[Branch], other: &[Branch], k: Lsn, least: Lsn) -> Lsn
    ensures lower { (result ≡ least) ⊎ (0 < result) × (result < least) × (branch_at path.now result ≢ branch_at other.now result) }
    ensures within { result ≤ least }
    ensures tried { 0 < k → k < result → branch_at path.now k ≡ branch_at other.now k }
{
    if k == 0 || k >= least {
        return least;
    }
    if are_on_one(path, other, k) { least } else { k }
}

// The least of some starts, below `least`, at which two paths aren't on one branch, or else `least`.
fn earlier(path: &[Branch], other: &[Branch], starts: &[Branch], least: Lsn) -> Lsn
    ensures lower { (result ≡ least) ⊎ (0 < result) × (result < least) × (branch_at path.now result ≢ branch_at other.now result) }
    ensures within { result ≤ least }
    ensures tried { AllByRecursion (λ b. 0 < b.start → b.start < result → branch_at path.now b.start ≡ branch_at other.now b.start) starts.now }
{
    let mut found = least;
    for branch in starts {
        found = lesser(path, other, branch.start, found);
    }
    found
}

// The least number from 1, below both points, at which two paths aren't on one branch.
fn first_differ(path: &[Branch], x: Lsn, other: &[Branch], y: Lsn) -> Option<Lsn>
    ensures { MatchOption result (Agree path.now x other.now y) (FirstDiffer path.now x other.now y) }
{
    let end = x.min(y);
    let at_1 = lesser(path, other, 1, end);
    let in_path = earlier(path, other, path, at_1);
    let least = earlier(path, other, other, in_path);
    if least < end { Some(least) } else { None }
}
