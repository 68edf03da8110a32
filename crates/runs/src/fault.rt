ghost use Rattle.std.specs.Prelude.{◌≡◌};
ghost use Rattle.runs.specs.Faults.{number as fault_number, carried, of_hashing};

use hashing::fault::HashFault;
use std::fmt;

/// Why a call to a pressing is refused.
#[derive(Clone, Copy, PartialEq, Eq, Debug, Drop)]
pub enum PressFault {
    /// The call does not belong to the stage.
    WrongStage,
    /// A lent work list is too short.
    ShortList,
    /// The pressing has 1,024 names already.
    TooManyNames,
    /// A name with this spelling was entered before.
    SpellingEntered,
    /// The way's size is not the number of names.
    WaySize,
    /// There is no name to map.
    NoName,
    /// The number of vertices on each side is not 1 to 1,024.
    VertexCount,
    /// The seed is not 1 to 2,147,483,646.
    Seed,
    /// Two names have one triple.
    Clash,
    /// No rotation fits this level.
    Unfit(u16),
    /// The memory for the string is too short.
    ShortString,
}

impl PressFault {
    /// The number of the refusal.
    pub fn number(self) -> u8
        ensures { result ≡ fault_number self }
    {
        match self {
            PressFault::WrongStage => 10,
            PressFault::ShortList => 11,
            PressFault::TooManyNames => 12,
            PressFault::SpellingEntered => 13,
            PressFault::WaySize => 14,
            PressFault::NoName => 15,
            PressFault::VertexCount => 16,
            PressFault::Seed => 17,
            PressFault::Clash => 18,
            PressFault::Unfit(_) => 19,
            PressFault::ShortString => 20,
        }
    }

    /// The level that no rotation fits, if that is the fault.
    pub fn level(self) -> Option<u16>
        ensures { result ≡ carried self }
    {
        match self {
            PressFault::Unfit(level) => Some(level),
            _ => None,
        }
    }
}

/// What hashing refuses, a pressing refuses under the same number.
impl From<HashFault> for PressFault {
    ghost from_gives = { λ h f. f ≡ of_hashing h };

    fn from(fault: HashFault) -> PressFault {
        match fault {
            HashFault::ShortTables => PressFault::ShortList,
            HashFault::TooManyNames => PressFault::TooManyNames,
            HashFault::NoName => PressFault::NoName,
            HashFault::VertexCount => PressFault::VertexCount,
            HashFault::SeedRange => PressFault::Seed,
        }
    }
}

/// The number of the refusal and what it means.
impl fmt::Display for PressFault {
    fn fmt<W: fmt::Write>(&self, f: &mut fmt::Formatter<W>) -> fmt::Result {
        let number = self.number();
        let meaning = match self {
            PressFault::WrongStage => "the call does not belong to the stage",
            PressFault::ShortList => "a work list is too short",
            PressFault::TooManyNames => "more than 1,024 names",
            PressFault::SpellingEntered => "a name with this spelling was entered before",
            PressFault::WaySize => "the way's size is not the number of names",
            PressFault::NoName => "no name",
            PressFault::VertexCount => "r is not from 1 to 1,024",
            PressFault::Seed => "the seed is not from 1 to 2,147,483,646",
            PressFault::Clash => "two names have one triple",
            PressFault::Unfit(_) => "no rotation of the way fits",
            PressFault::ShortString => "the memory for the string is too short",
        };
        write!(f, "refused {number}: {meaning}")
    }
}
