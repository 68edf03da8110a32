ghost use Rattle.std.specs.Prelude.{◌≡◌};
ghost use Rattle.typing.specs.declared.typed.Unlisted.TheVariants.{Refused};

use crate::numbers::{Reading, or_0};
use names::cell::DayCell;
use names::fault::NameFault;
use names::kind::Kind;
use names::point::PointName;
use std::fmt;
use std::str::SplitWhitespace;

/// Why words give no name with its setting.
#[derive(Clone, Copy, PartialEq, Eq, Debug, Drop)]
pub enum Unlisted {
    /// What stands for the name is outside the ranges.
    Refused(NameFault),
    /// The words are not a name and a setting from 0 to 65,535.
    Unread,
}

impl From<NameFault> for Unlisted {
    ghost from_gives = { λ f u. u ≡ Refused f };

    fn from(fault: NameFault) -> Unlisted {
        Unlisted::Refused(fault)
    }
}

/// A kind of name that people type and read.
pub trait Typed: Kind + fmt::Display {
    /// Reads the words of a name and a setting, which have to be all that there are.
    fn read<R: Reading>(words: SplitWhitespace<'_>) -> Result<(Self, u16), Unlisted>;

    /// What a name has to be.
    fn rule() -> &'static str;
}

// Reads a setting.
fn setting(word: &str) -> Result<u16, Unlisted> {
    word.parse::<u16>().map_err(|_| Unlisted::Unread)
}

/// `NAME SETTING`
impl Typed for PointName {
    fn read<R: Reading>(mut words: SplitWhitespace<'_>) -> Result<(PointName, u16), Unlisted> {
        let (Some(name), Some(value), None) = (words.next(), words.next(), words.next()) else {
            return Err(Unlisted::Unread);
        };
        let setting = setting(value)?;
        Ok((PointName::new(name.as_bytes())?, setting))
    }

    fn rule() -> &'static str {
        "a point name has 1 to 16 bytes from 33 to 126"
    }
}

/// `PAN DAY SETTING`
impl Typed for DayCell {
    fn read<R: Reading>(mut words: SplitWhitespace<'_>) -> Result<(DayCell, u16), Unlisted> {
        let (Some(pan), Some(day), Some(value), None) = (
            words.next(),
            words.next(),
            words.next(),
            words.next(),
        ) else {
            return Err(Unlisted::Unread);
        };
        let pan = R::number(pan).ok_or(Unlisted::Unread)?;
        let day = R::number(day).ok_or(Unlisted::Unread)?;
        let setting = setting(value)?;
        Ok((DayCell::new(or_0(pan), or_0(day))?, setting))
    }

    fn rule() -> &'static str {
        "a day cell has a pan from 1 to 999 and a day from 1 to 366"
    }
}
