ghost use Rattle.std.specs.Prelude.{◌≡◌};
ghost use Rattle.hashing.specs.Faults.{number as fault_number};

use std::fmt;

/// Why numbers or memory do not serve for hashing.
#[derive(Clone, Copy, PartialEq, Eq, Debug, Drop)]
pub enum HashFault {
    /// 11: memory for tables of fewer than 12,288 numbers.
    ShortTables,
    /// 12: more than 1,024 names.
    TooManyNames,
    /// 15: no name.
    NoName,
    /// 16: r is not from 1 to 1,024.
    VertexCount,
    /// 17: a seed that is not from 1 to 2,147,483,646.
    SeedRange,
}

impl HashFault {
    /// The number of the refusal.
    pub fn number(self) -> u8
        ensures { result ≡ fault_number self }
    {
        match self {
            HashFault::ShortTables => 11,
            HashFault::TooManyNames => 12,
            HashFault::NoName => 15,
            HashFault::VertexCount => 16,
            HashFault::SeedRange => 17,
        }
    }
}

/// The number of the refusal and what it means.
impl fmt::Display for HashFault {
    fn fmt<W: fmt::Write>(&self, f: &mut fmt::Formatter<W>) -> fmt::Result {
        let number = self.number();
        let meaning = match self {
            HashFault::ShortTables => "memory for tables of fewer than 12,288 numbers",
            HashFault::TooManyNames => "more than 1,024 names",
            HashFault::NoName => "no name",
            HashFault::VertexCount => "r is not from 1 to 1,024",
            HashFault::SeedRange => "the seed is not from 1 to 2,147,483,646",
        };
        write!(f, "refused {number}: {meaning}")
    }
}
