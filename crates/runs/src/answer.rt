use crate::fault::PressFault;
use std::fmt;

/// What an accepted call to a pressing comes to.
#[derive(Clone, Copy, PartialEq, Eq, Debug, Drop)]
pub enum Outcome {
    Entered,
    Mapped,
    /// The number of ordered vertices.
    Ordered(u16),
    /// The rotation that fits, and how many were tried.
    Fitted(u16, u16),
    Reopened,
    /// The length of the plate string.
    Sealed(usize),
}

impl fmt::Display for Outcome {
    fn fmt<W: fmt::Write>(&self, f: &mut fmt::Formatter<W>) -> fmt::Result {
        match *self {
            Outcome::Entered => write!(f, "entered"),
            Outcome::Mapped => write!(f, "mapped"),
            Outcome::Ordered(count) => write!(f, "ordered {count}"),
            Outcome::Fitted(rotation, tries) => write!(f, "fitted {rotation} {tries}"),
            Outcome::Reopened => write!(f, "reopened"),
            Outcome::Sealed(len) => write!(f, "sealed {len}"),
        }
    }
}

/// What a call to a pressing answers: what it came to, or why it is refused.
pub type Answer = Result<Outcome, PressFault>;
