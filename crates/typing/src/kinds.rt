ghost use Rattle.std.specs.Prelude.{Some, codes};
ghost use Rattle.typing.specs.Kinds.{Chooses};

use std::fmt;

/// A kind of name that a text chooses by its number.
#[derive(Clone, Copy, PartialEq, Eq, Debug, Drop)]
pub enum NameKind {
    /// 1
    PointNames,
    /// 2
    DayCells,
}

/// A number that is no kind's.
#[derive(Clone, Copy, PartialEq, Eq, Debug, Drop)]
pub struct UnknownKind;

impl TryFrom<u64> for NameKind {
    type Error = UnknownKind;

    ghost try_from_gives = { Chooses };

    fn try_from(number: u64) -> Result<NameKind, UnknownKind> {
        match number {
            1 => Ok(NameKind::PointNames),
            2 => Ok(NameKind::DayCells),
            _ => Err(UnknownKind),
        }
    }
}

impl fmt::Display for UnknownKind {
    ghost output = { λ _. Some (codes "there are kinds 1 (point names) and 2 (day cells)") };

    fn fmt<W: fmt::Write>(&self, f: &mut fmt::Formatter<W>) -> fmt::Result {
        write!(f, "there are kinds 1 (point names) and 2 (day cells)")
    }
}
