/// A unit of restore: a data file, or one page of it. Files count from 1, pages from 0.
#[derive(Clone, Copy, Debug, PartialEq, Eq, PartialOrd, Ord)]
pub enum UnitId {
    /// The data file of this number.
    File(u16),
    /// The page of this number in the file of this number.
    Page(u16, u32),
}
