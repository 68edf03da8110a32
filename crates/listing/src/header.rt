ghost use Rattle.std.specs.Prelude.{Some};
ghost use Rattle.listing.specs.Headers.{sentence};

use hashing::fault::HashFault;
use hashing::seed::Seed;
use hashing::sizes::Sizes;
use std::fmt;
use typing::kinds::{NameKind, UnknownKind};
use typing::numbers::{Reading, or_0, seed_or_0};

/// The first line of a list: `KIND R SEED`.
#[derive(Clone, Copy, Drop)]
pub(crate) struct Header {
    pub kind: NameKind,
    pub r: u16,
    pub seed: u32,
}

/// Why a line is no header.
#[derive(Clone, Copy, PartialEq, Eq, Debug, Drop)]
pub(crate) enum NoHeader {
    Unread,
    Kind(UnknownKind),
}

impl From<UnknownKind> for NoHeader {
    fn from(kind: UnknownKind) -> NoHeader {
        NoHeader::Kind(kind)
    }
}

impl fmt::Display for NoHeader {
    ghost output = { λ reason. Some (sentence reason) };

    fn fmt<W: fmt::Write>(&self, f: &mut fmt::Formatter<W>) -> fmt::Result {
        match self {
            NoHeader::Unread => write!(f, "the first line is not KIND R SEED"),
            NoHeader::Kind(kind) => write!(f, "{kind}"),
        }
    }
}

impl Header {
    /// Reads the first line; a number too large for its type is read as 0, which no range has.
    pub(crate) fn read<R: Reading>(line: &str) -> Result<Header, NoHeader> {
        let mut words = line.split_whitespace();
        let (Some(kind), Some(r), Some(seed), None) = (
            words.next(),
            words.next(),
            words.next(),
            words.next(),
        ) else {
            return Err(NoHeader::Unread);
        };
        let kind = R::number(kind).ok_or(NoHeader::Unread)?;
        let r = R::number(r).ok_or(NoHeader::Unread)?;
        let seed = R::number(seed).ok_or(NoHeader::Unread)?;
        Ok(Header {
            kind: NameKind::try_from(kind)?,
            r: or_0(r),
            seed: seed_or_0(seed),
        })
    }

    /// The sizes and the seed for so many names.
    pub(crate) fn judged(self, count: usize) -> Result<(Sizes, Seed), HashFault> {
        Ok((Sizes::new(count, self.r)?, Seed::new(self.seed)?))
    }
}
