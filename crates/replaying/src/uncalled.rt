ghost use Rattle.std.specs.Prelude.{◌≡◌};
ghost use Rattle.replaying.specs.Lines.{of_unlisted};
ghost use Rattle.replaying.specs.declared.uncalled.Uncalled.TheVariants.{Way};

use names::fault::NameFault;
use std::fmt;
use typing::typed::Unlisted;
use ways::fault::WayFault;

/// Why a line makes no call.
#[derive(Clone, Copy, PartialEq, Eq, Debug, Drop)]
pub enum Uncalled {
    /// The name is refused.
    Name(NameFault),
    /// The way is refused.
    Way(WayFault),
    /// The line is no step.
    Unread,
}

impl From<Unlisted> for Uncalled {
    ghost from_gives = { λ u c. c ≡ of_unlisted u };

    fn from(reason: Unlisted) -> Uncalled {
        match reason {
            Unlisted::Refused(fault) => Uncalled::Name(fault),
            Unlisted::Unread => Uncalled::Unread,
        }
    }
}

impl From<WayFault> for Uncalled {
    ghost from_gives = { λ f c. c ≡ Way f };

    fn from(fault: WayFault) -> Uncalled {
        Uncalled::Way(fault)
    }
}

// A refusal with its number alone.
fn refused<W: fmt::Write>(number: u8, f: &mut fmt::Formatter<W>) -> fmt::Result {
    write!(f, "refused {number}")
}

impl fmt::Display for Uncalled {
    fn fmt<W: fmt::Write>(&self, f: &mut fmt::Formatter<W>) -> fmt::Result {
        match self {
            Uncalled::Name(refusal) => refused(refusal.number(), f),
            Uncalled::Way(refusal) => refused(refusal.number(), f),
            Uncalled::Unread => write!(f, "unread"),
        }
    }
}
