ghost use Rattle.std.specs.Prelude.{◌≡◌, ◌<◌, ◌≤◌, ◌%◌, ℕ, MatchOption};

use std::marker::Model;

// How many cells a page has.
const CELLS: u16 = 63;

/// The slot of a cell on its page, from 0 and below 63. Contracts see its number.
#[derive(Clone, Copy, Debug, PartialEq, Eq, PartialOrd, Ord)]
pub struct Slot {
    number: u16,
}

impl Model for Slot {
    ghost Value = { ℕ };

    ghost view = { λ slot. slot.number };

    ghost invariant = { λ slot. slot.number < 63 };

    ghost inverse = { λ n. record { number = n } };
}

impl Slot {
    /// The slot of this number, where it is below 63.
    pub fn new(number: u16) -> Option<Self>
        ensures { MatchOption result (63 ≤ number) (λ slot. (slot ≡ number) × (number < 63)) }
    {
        if number < CELLS {
            Some(Slot { number })
        } else {
            None
        }
    }

    /// The slot of the cell with this number, where each page has 63 of them.
    pub fn of_cell(cell: usize) -> Self
        ensures { result ≡ cell % 63 }
    {
        Slot {
            number: (cell % 63) as u16,
        }
    }

    /// Its number.
    pub fn get(self) -> u16
        ensures is { result ≡ self }
        ensures below { result < 63 }
    {
        self.number
    }
}
