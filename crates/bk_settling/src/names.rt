// Which names may be made durable.
ghost use Rattle.std.specs.Prelude.{◌≡◌, List, ℕ, true, IfOk};

use std::alloc::{AllocError, Global};

/// Names that a run may touch.
pub trait Names {
    /// The name is one of them.
    ghost own: { List ℕ → Type 0 };

    /// Whether a name is one of them; nothing is known of one that isn't found to be.
    fn is_own(alloc: Global, name: &str) -> Result<bool, AllocError>
        ensures { IfOk result (λ found. found ≡ true → own name.now) };
}
