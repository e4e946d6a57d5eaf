// What the commands of a case are put to.
use std::alloc::AllocError;

/// What the commands of a case are put to.
pub trait Subject {
    /// Begins a case: everything is as new.
    fn begin(&mut self) -> Result<(), AllocError>;

    /// Appends to `out` what the command answers, each line with its line end. A command of several lines has line ends between them.
    fn answer(&mut self, command: &str, out: &mut String) -> Result<(), AllocError>;
}
