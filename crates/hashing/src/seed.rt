ghost use Rattle.std.specs.Prelude.{◌≡◌, ℕ, ◌*◌, ◌%◌, ◌≤◌};
ghost use Rattle.refusals.specs.Checks.{Answered};
ghost use Rattle.hashing.specs.Generator.{next as next_state};
ghost use Rattle.hashing.specs.Faults.{seed_fault};

use crate::fault::HashFault;

const MULTIPLIER: u64 = 16807;

/// 2^31 - 1
const MODULUS: u64 = 2147483647;

/// A state of the generator, from 1 to 2,147,483,646. The generator starts at one, its seed.
#[derive(Clone, Copy)]
pub struct Seed {
    value: u32,
    ghost low: { 1 ≤ value },
    ghost high: { value ≤ 2147483646 },
}

impl Seed {
    /// The seed of this value; refused with 17 exactly if it is outside the range.
    pub fn new(value: u32) -> Result<Seed, HashFault>
        ensures { Answered (seed_fault value) (λ x. x.value ≡ value) result }
    {
        if !(1..=2147483646).contains(&value) {
            return Err(HashFault::SeedRange);
        }
        Ok(Seed { value })
    }

    /// The value of the state.
    pub fn value(self) -> u32
        ensures { result ≡ self.value }
    {
        self.value
    }

    /// The state after one step.
    pub fn next(self) -> Seed
        ensures { result.value ≡ next_state self.value }
    {
        let state = remainder(MULTIPLIER * u64::from(self.value));
        Seed {
            value: state as u32,
        }
    }
}

/// The remainder of a product by 2^31 - 1, folded from its two halves with no division.
fn remainder(product: u64) -> u64
    requires { product ≤ 16807 * 2147483646 }
    ensures { result ≡ product % 2147483647 }
{
    let folded = (product & MODULUS) + (product >> 31);
    if folded < MODULUS {
        folded
    } else {
        folded - MODULUS
    }
}
