//! What a claim of a frame gives.

/// What a claim of a frame gives.
#[derive(Clone, Copy, Debug, PartialEq, Eq)]
pub enum Claim {
    /// The page now lies in this frame, whose bytes are still those of what lay there.
    Free(usize),
    /// Every frame is dirty, and nothing was claimed. Given are a frame that might go next, and the file and number of
    /// its page.
    Spill(usize, u16, u32),
}
