ghost use Rattle.std.specs.Prelude.{◌≡◌, ℕ, ◌<◌, ◌≤◌, [], ◌∷◌, length, slice_index};
ghost use Rattle.refusals.specs.Checks.{Told};
ghost use Rattle.hashing.specs.Faults.{room_fault};
ghost use Rattle.hashing.specs.Filling.{filled};
ghost use Rattle.hashing.specs.Generator.{drawn};

use crate::fault::HashFault;
use crate::seed::Seed;

/// How many numbers the tables have: 3 functions, 16 places, 256 bytes.
pub const TABLE_NUMBERS: usize = 12288;

/// Fills the first 12,288 numbers of the memory, each with the state after one more step from
/// the seed. Refused with 11, and nothing written, exactly if the memory is shorter.
pub fn fill(memory: &mut [u32], seed: Seed) -> Result<(), HashFault>
    ensures answer { Told (room_fault (length memory.old) ∷ []) tt result }
    ensures memory { memory.new ≡ filled seed.value memory.old }
    ensures drawn_in_range { 12288 ≤ length memory.old → (k : ℕ) → k < 12288 → (1 ≤ slice_index memory.new k) × (slice_index memory.new k ≤ 2147483646) }
{
    if memory.len() < TABLE_NUMBERS {
        return Err(HashFault::ShortTables);
    }
    draw(&mut memory[..TABLE_NUMBERS], seed);
    Ok(())
}

/// Fills memory with the states after 1, 2, .. steps from the seed.
fn draw(memory: &mut [u32], seed: Seed)
    ensures { memory.new ≡ drawn (length memory.old) seed.value }
{
    let mut state = seed;
    for number in memory {
        state = state.next();
        *number = state.value();
    }
}
