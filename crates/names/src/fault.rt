ghost use Rattle.std.specs.Prelude.{◌≡◌};
ghost use Rattle.names.specs.Faults.{number as fault_number};

/// Why a name is not made.
#[derive(Clone, Copy, PartialEq, Eq, Debug, Drop)]
pub enum NameFault {
    /// 1: outside the ranges of its kind.
    OutsideRange,
}

impl NameFault {
    /// The number of the refusal.
    pub fn number(self) -> u8
        ensures { result ≡ fault_number self }
    {
        match self {
            NameFault::OutsideRange => 1,
        }
    }
}
