ghost use Rattle.std.specs.Prelude.{◌≡◌, ◌+◌, ◌^◌, ◌<◌, ◌&&◌, [], ◌∷◌, length, nat_le, nat_lt};
ghost use Rattle.refusals.specs.Checks.{Told};
ghost use Rattle.runs.specs.Plates.{two, padded, record_field};
ghost use Rattle.fields.specs.Writing.{written_if};
ghost use Rattle.fields.specs.Parts.{header as header_of, values_head as values_head_of, value_place, record_place};
ghost use Rattle.fields.specs.Faults.{place_fault, room_fault};

use crate::fault::WriteFault;
use hashing::seed::Seed;
use hashing::sizes::Sizes;
use names::kind::Kind;
use std::array;

/// The bytes of the fields of kind, sizes and seed.
fn header(kind: u8, sizes: Sizes, seed: Seed) -> [u8; 18]
    ensures { result ≡ header_of kind sizes.n sizes.r seed.value }
{
    let [n1, n0] = sizes.n().to_be_bytes();
    let [r1, r0] = sizes.r().to_be_bytes();
    let [s3, s2, s1, s0] = seed.value().to_be_bytes();
    [
        1, 0, 1, kind, 2, 0, 4, n1, n0, r1, r0, 3, 0, 4, s3, s2, s1, s0,
    ]
}

/// The head of the values field: its tag and the length of 4r bytes.
fn values_head(sizes: Sizes) -> [u8; 3]
    ensures { result ≡ values_head_of sizes.r }
{
    let [high, low] = (4 * sizes.r()).to_be_bytes();
    [4, high, low]
}

/// The spelling of a name in 16 bytes: past its spelling a name tells 0.
fn spelling<N: Kind>(name: &N) -> [u8; 16]
    ensures { result ≡ padded (N.spelling name.now) }
{
    array::from_fn(|k| name.byte(k + 1))
}

/// The bytes of one record's field.
fn record<N: Kind>(setting: u16, name: &N) -> [u8; 22]
    ensures { result ≡ record_field (record { spelling = N.spelling name.now; setting = setting }) }
{
    let [high, low] = setting.to_be_bytes();
    let mut bytes = [0; 22];
    bytes[..6].copy_from_slice(&[5, 0, 19, high, low, name.len() as u8]);
    bytes[6..].copy_from_slice(&spelling(name));
    bytes
}

/// Writes bytes at a place. Refused, and nothing written, exactly if the memory ends before
/// they do.
fn put(memory: &mut [u8], at: usize, bytes: &[u8]) -> Result<(), WriteFault>
    requires { at + length bytes.now < 2 ^ 64 }
    ensures answer { Told (room_fault (at + length bytes.now) (length memory.old) ∷ []) tt result }
    ensures memory { memory.new ≡ written_if (nat_le (at + length bytes.now) (length memory.old)) at bytes.now memory.old }
{
    let end = at + bytes.len();
    if memory.len() < end {
        return Err(WriteFault::ShortMemory);
    }
    memory[at..end].copy_from_slice(bytes);
    Ok(())
}

/// Writes the fields of the kind number, the sizes and the seed, 18 bytes at the start.
/// Refused, and nothing written, exactly if the memory is shorter.
pub fn write_header(memory: &mut [u8], kind: u8, sizes: Sizes, seed: Seed) -> Result<(), WriteFault>
    ensures answer { Told (room_fault 18 (length memory.old) ∷ []) tt result }
    ensures memory { memory.new ≡ written_if (nat_le 18 (length memory.old)) 0 (header_of kind sizes.n sizes.r seed.value) memory.old }
{
    put(memory, 0, &header(kind, sizes, seed))
}

/// Writes the head of the values field, its tag and the length of 4r bytes, behind the seed's.
/// Refused, and nothing written, exactly if the memory ends before byte 21.
pub fn write_values_head(memory: &mut [u8], sizes: Sizes) -> Result<(), WriteFault>
    ensures answer { Told (room_fault 21 (length memory.old) ∷ []) tt result }
    ensures memory { memory.new ≡ written_if (nat_le 21 (length memory.old)) 18 (values_head_of sizes.r) memory.old }
{
    put(memory, 18, &values_head(sizes))
}

/// Writes the value of the vertex of this index, from 0 to 2,047, in two bytes at its place.
/// Refused, and nothing written, exactly if there is no such vertex or the memory ends
/// before the value does.
pub fn write_value(memory: &mut [u8], index: usize, value: u16) -> Result<(), WriteFault>
    ensures answer { Told (place_fault index 2048 ∷ room_fault (value_place index + 2) (length memory.old) ∷ []) tt result }
    ensures memory { memory.new ≡ written_if (nat_lt index 2048 && nat_le (value_place index + 2) (length memory.old)) (value_place index) (two value) memory.old }
{
    if index >= 2048 {
        return Err(WriteFault::NoSuchPlace);
    }
    put(memory, 21 + 2 * index, &value.to_be_bytes())
}

/// Writes the record of a name and its setting in the field of this slot, from 0 to n - 1:
/// 22 bytes behind the 2r values and the records of lower slots. Refused, and nothing written,
/// exactly if there is no such slot or the memory ends before the field does.
pub fn write_record<N: Kind>(
    memory: &mut [u8],
    sizes: Sizes,
    slot: usize,
    setting: u16,
    name: &N,
) -> Result<(), WriteFault>
    ensures answer { Told (place_fault slot sizes.n ∷ room_fault (record_place sizes.r slot + 22) (length memory.old) ∷ []) tt result }
    ensures memory { memory.new ≡ written_if (nat_lt slot sizes.n && nat_le (record_place sizes.r slot + 22) (length memory.old)) (record_place sizes.r slot) (record_field (record { spelling = N.spelling name.now; setting = setting })) memory.old }
{
    if slot >= usize::from(sizes.n()) {
        return Err(WriteFault::NoSuchPlace);
    }
    let at = 21 + 4 * usize::from(sizes.r()) + 22 * slot;
    if memory.len() < at + 22 {
        return Err(WriteFault::ShortMemory);
    }
    put(memory, at, &record(setting, name))
}
