// The two slots of a control file.
ghost use Rattle.std.specs.Prelude.{◌≡◌};
ghost use Rattle.bk_control.specs.Slots.{other, place};

/// One of the two slots of a control file.
#[derive(Clone, Copy, Debug, PartialEq, Eq)]
pub enum Side {
    First,
    Second,
}

impl Side {
    /// The slot that this one isn't.
    pub fn other(self) -> Side
        ensures { result ≡ other self }
    {
        match self {
            Side::First => Side::Second,
            Side::Second => Side::First,
        }
    }

    /// Where the slot begins in the file, in bytes.
    pub fn place(self) -> u64
        ensures { result ≡ place self }
    {
        match self {
            Side::First => 0,
            Side::Second => 65_600,
        }
    }
}
