ghost use Rattle.std.specs.Prelude.{◌≡◌, ℕ, ◌<◌, Option, None, Some, IfSome, min, if◌then◌else◌, nat_lt};
ghost use Rattle.typing.specs.Numbers.{Writes, written_number, read_as};

use std::num::IntErrorKind;

/// The number that a word writes; one too large for 64 bits counts as the largest of them.
pub fn number(word: &str) -> Option<u64>
    ensures read { Writes word.now → result ≡ Some (min (written_number word.now) 18446744073709551615) }
    ensures only { IfSome result (λ x. x < 18446744073709551615 → Writes word.now × (x ≡ written_number word.now)) }
{
    match word.parse::<u64>() {
        Ok(x) => Some(x),
        Err(e) => match e.kind() {
            IntErrorKind::PosOverflow => Some(u64::MAX),
            _ => None,
        },
    }
}

/// A way of reading numbers: it reads each number of 64 bits, and nothing else as one.
pub trait Reading {
    /// What a number of more than 64 bits is read as.
    ghost beyond: { Option ℕ };

    /// The number that a word writes, if it is read.
    fn number(word: &str) -> Option<u64>
        ensures read { Writes word.now → result ≡ read_as beyond (written_number word.now) }
        ensures only { IfSome result (λ x. x < 18446744073709551615 → Writes word.now × (x ≡ written_number word.now)) };
}

/// Reads a number of more than 64 bits as the largest of them.
pub struct Capped;

impl Reading for Capped {
    ghost beyond = { Some 18446744073709551615 };

    fn number(word: &str) -> Option<u64> {
        number(word)
    }
}

/// Reads no number of more than 64 bits.
pub struct Whole;

impl Reading for Whole {
    ghost beyond = { None };

    fn number(word: &str) -> Option<u64> {
        word.parse::<u64>().ok()
    }
}

/// The number, or 0 where it is too large for 16 bits: for numbers whose range has no 0.
pub fn or_0(x: u64) -> u16
    ensures { result ≡ (if nat_lt x 65536 then x else 0) }
{
    u16::try_from(x).unwrap_or(0)
}

/// The number, or the largest of 16 bits where it is larger: for numbers whose range has 0.
pub fn or_most(x: u64) -> u16
    ensures { result ≡ (if nat_lt x 65536 then x else 65535) }
{
    u16::try_from(x).unwrap_or(u16::MAX)
}

/// The number as a seed, or 0, which is none, where it is too large for 32 bits.
pub fn seed_or_0(x: u64) -> u32
    ensures { result ≡ (if nat_lt x 4294967296 then x else 0) }
{
    u32::try_from(x).unwrap_or(0)
}
