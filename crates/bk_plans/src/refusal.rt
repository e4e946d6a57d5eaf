//! Why a statement isn't done.

ghost use Rattle.std.specs.Prelude.{◌≡◌};
ghost use Rattle.bk_plans.specs.declared.refusal.Refusal.TheVariants as refusal;

use bk_world::Rule;
use std::alloc::AllocError;

/// Why a statement isn't done.
#[derive(Debug, Drop)]
pub enum Refusal {
    /// It breaks this rule, the first of its checks that doesn't hold.
    Broken(Rule),
    /// Memory was wanting.
    NoMemory,
}

impl From<Rule> for Refusal {
    ghost from_gives = { λ rule e. e ≡ refusal.Broken rule };

    fn from(rule: Rule) -> Self {
        Refusal::Broken(rule)
    }
}

impl From<AllocError> for Refusal {
    ghost from_gives = { λ _ e. e ≡ refusal.NoMemory };

    fn from(_: AllocError) -> Self {
        Refusal::NoMemory
    }
}
