ghost use Rattle.std.specs.Prelude.{◌≡◌, ℕ, ◌≤◌};
ghost use Rattle.refusals.specs.Checks.{Answered};
ghost use Rattle.hashing.specs.Faults.{sizes_fault};

use crate::fault::HashFault;

/// The most names of a pressing.
pub const MOST_NAMES: usize = 1024;

/// The most vertices on each side of its graph.
pub const MOST_ON_A_SIDE: usize = 1024;

/// The number n of names, and the number r of vertices on each side of the graph,
/// both from 1 to 1,024.
#[derive(Clone, Copy)]
pub struct Sizes {
    n: u16,
    r: u16,
    ghost n_from_1: { 1 ≤ n },
    ghost n_to_1024: { n ≤ 1024 },
    ghost r_from_1: { 1 ≤ r },
    ghost r_to_1024: { r ≤ 1024 },
}

impl Sizes {
    /// The sizes n and r; refused with 12, 15 or 16 by the first that is outside its range.
    pub fn new(n: usize, r: u16) -> Result<Sizes, HashFault>
        ensures { Answered (sizes_fault n r) (λ x. (x.n ≡ n) × (x.r ≡ r)) result }
    {
        if n > MOST_NAMES {
            return Err(HashFault::TooManyNames);
        }
        if n < 1 {
            return Err(HashFault::NoName);
        }
        if !(1..=MOST_ON_A_SIDE).contains(&usize::from(r)) {
            return Err(HashFault::VertexCount);
        }
        Ok(Sizes { n: n as u16, r })
    }

    /// The number of names.
    pub fn n(self) -> u16
        ensures { result ≡ self.n }
    {
        self.n
    }

    /// The number of vertices on each side.
    pub fn r(self) -> u16
        ensures { result ≡ self.r }
    {
        self.r
    }
}
