ghost use Rattle.std.specs.Prelude.{◌≡◌};
ghost use Rattle.ways.specs.Faults.{number};

use std::fmt;

/// Why a proposed way is refused.
#[derive(Clone, Copy, PartialEq, Eq, Debug, Drop)]
pub enum WayFault {
    /// The size, start or stride is against the rule.
    BrokenRule,
    /// The list does not hold each rotation once.
    NotEachOnce,
}

impl WayFault {
    /// The number of the refusal.
    pub fn number(self) -> u8
        ensures { result ≡ number self }
    {
        match self {
            WayFault::BrokenRule => 2,
            WayFault::NotEachOnce => 3,
        }
    }
}

/// The number of the refusal and what it means.
impl fmt::Display for WayFault {
    fn fmt<W: fmt::Write>(&self, f: &mut fmt::Formatter<W>) -> fmt::Result {
        let number = self.number();
        let meaning = match self {
            WayFault::BrokenRule =>
                "size and stride share a divisor, or a number is outside its range",
            WayFault::NotEachOnce => "the list does not hold each rotation once",
        };
        write!(f, "refused {number}: {meaning}")
    }
}
