ghost use Rattle.std.specs.Prelude.{◌≡◌, ℕ, ◌+◌, ◌*◌, ◌%◌, ◌<◌, ◌≤◌, true, false, List, length, nat_le, MatchOption};
ghost use Rattle.std.specs.Iterator.{Drains, UpTo};
ghost use Rattle.hashing.specs.Generator.{entry as entry_of};
ghost use Rattle.hashing.specs.Triples.{sum, hashed};

use crate::sizes::Sizes;
use crate::tables::TABLE_NUMBERS;
use names::bytes::Bytes;
use names::kind::Kind;

/// Tables that are long enough, whatever they hold.
#[derive(Clone, Copy)]
struct Tables<'a> {
    numbers: &'a [u32],
    ghost full: { 12288 ≤ length numbers.now },
}

impl<'a> Tables<'a> {
    /// Tables over these numbers; none exactly if they are short of 12,288.
    fn over(numbers: &'a [u32]) -> Option<Tables<'a>>
        ensures { MatchOption result (nat_le 12288 (length numbers.now) ≡ false) (λ t. (nat_le 12288 (length numbers.now) ≡ true) × (t.numbers.now ≡ numbers.now)) }
    {
        if numbers.len() < TABLE_NUMBERS {
            return None;
        }
        Some(Tables { numbers })
    }
}

/// The sums of the three functions over the first places of a spelling.
#[derive(Clone, Copy)]
struct Sums {
    places: usize,
    s0: u64,
    s1: u64,
    s2: u64,
    ghost few: { places ≤ 16 },
    ghost s0_small: { s0 ≤ places * 4294967296 },
    ghost s1_small: { s1 ≤ places * 4294967296 },
    ghost s2_small: { s2 ≤ places * 4294967296 },
}

impl Sums {
    /// The sums over no place.
    fn none() -> Sums
        ensures { (result.places ≡ 0) × (result.s0 ≡ 0) × (result.s1 ≡ 0) × (result.s2 ≡ 0) }
    {
        Sums {
            places: 0,
            s0: 0,
            s1: 0,
            s2: 0,
        }
    }

    /// The sums with the numbers of one more byte, at the next place.
    fn with(self, tables: Tables, byte: u8) -> Sums
        requires { self.places < 16 }
        ensures places { result.places ≡ self.places + 1 }
        ensures s0 { result.s0 ≡ self.s0 + entry_of tables.entry.numbers.now 0 (self.places + 1) byte }
        ensures s1 { result.s1 ≡ self.s1 + entry_of tables.entry.numbers.now 1 (self.places + 1) byte }
        ensures s2 { result.s2 ≡ self.s2 + entry_of tables.entry.numbers.now 2 (self.places + 1) byte }
    {
        let at = self.places * 256 + usize::from(byte);
        Sums {
            places: self.places + 1,
            s0: self.s0 + u64::from(tables.numbers[at]),
            s1: self.s1 + u64::from(tables.numbers[4096 + at]),
            s2: self.s2 + u64::from(tables.numbers[8192 + at]),
        }
    }

    /// The sums over at most 16 bytes, in their order.
    fn over<I: Iterator<Item = u8> + Drop>(tables: Tables, bytes: I) -> Sums
        requires can { I.can_next bytes }
        requires few { UpTo (I.remaining bytes) 16 }
        ensures { (xs : List ℕ) × Drains I.next_gives bytes xs × (result.s0 ≡ sum tables.entry.numbers.now 0 xs) × (result.s1 ≡ sum tables.entry.numbers.now 1 xs) × (result.s2 ≡ sum tables.entry.numbers.now 2 xs) }
    {
        let mut sums = Sums::none();
        for byte in bytes {
            sums = sums.with(tables, byte);
        }
        sums
    }

    /// The triple that the sums give.
    fn triple(self, sizes: Sizes) -> (u16, u16, u16)
        ensures { result ≡ (self.s0 % sizes.n, self.s1 % sizes.r, sizes.r + self.s2 % sizes.r) }
    {
        let n = u64::from(sizes.n());
        let r = u64::from(sizes.r());
        (
            (self.s0 % n) as u16,
            (self.s1 % r) as u16,
            (r + self.s2 % r) as u16,
        )
    }
}

/// The triple of a name, whatever the tables hold; none exactly if they are short of 12,288.
pub fn triple_of<N: Kind>(tables: &[u32], sizes: Sizes, name: &N) -> Option<(u16, u16, u16)>
    ensures { result ≡ hashed tables.now sizes.n sizes.r (N.spelling name.now) }
{
    let tables = Tables::over(tables)?;
    Some(Sums::over(tables, Bytes::of(name)).triple(sizes))
}

/// The triple of the bytes of a spelling where they lie, which is that of its name; none
/// exactly if the tables are short of 12,288 or the bytes are not 1 to 16.
pub fn triple_at(tables: &[u32], sizes: Sizes, bytes: &[u8]) -> Option<(u16, u16, u16)>
    ensures { result ≡ hashed tables.now sizes.n sizes.r bytes.now }
{
    let tables = Tables::over(tables)?;
    if !(1..=16).contains(&bytes.len()) {
        return None;
    }
    Some(Sums::over(tables, bytes.iter().copied()).triple(sizes))
}
