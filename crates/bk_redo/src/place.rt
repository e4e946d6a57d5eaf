/// The place of a page: its file, and its number in the file.
#[derive(Clone, Copy, Debug, PartialEq, Eq, PartialOrd, Ord)]
pub struct PageAt {
    pub file: u16,
    pub page: u32,
}
