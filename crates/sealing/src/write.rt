ghost use Rattle.std.specs.Prelude.{◌≡◌, ◌+◌, ◌*◌, ◌<◌, ◌≤◌, length, MatchOption};
ghost use Rattle.sealing.specs.Sealing.{seal_length, seal_fits, front_written, values_written, slot_written, records_written, SealRefused, SealWritten};

use fields::write::{write_header, write_record, write_value, write_values_head};
use graph::rows::{Row, Vertex};
use hashing::seed::Seed;
use hashing::sizes::Sizes;
use names::kind::Kind;

/// The length of the string of a plate of these sizes.
fn string_length(sizes: Sizes) -> usize
    ensures { result ≡ seal_length sizes.n sizes.r }
{
    21 + 4 * usize::from(sizes.r()) + 22 * usize::from(sizes.n())
}

/// Whether memory of this length has room for the string, and the lists have what it takes.
fn fits(sizes: Sizes, memory: usize, vertices: usize, slots: usize) -> bool
    ensures { result ≡ seal_fits sizes.n sizes.r memory vertices slots }
{
    string_length(sizes) <= memory
        && 2 * usize::from(sizes.r()) <= vertices
        && usize::from(sizes.n()) <= slots
}

/// The fields of kind, sizes and seed, and the head of the values field.
fn write_front<N: Kind>(sizes: Sizes, seed: Seed, memory: &mut [u8])
    requires { 21 ≤ length memory.old }
    ensures { memory.new ≡ front_written N.number sizes.n sizes.r seed.value memory.old }
{
    write_header(memory, N::number(), sizes, seed).unwrap();
    write_values_head(memory, sizes).unwrap();
}

/// The values of the vertices.
fn write_values(vertices: &[Vertex], memory: &mut [u8])
    requires few { length vertices.now ≤ 2048 }
    requires room { 21 + 2 * length vertices.now ≤ length memory.old }
    ensures { memory.new ≡ values_written vertices.now (length vertices.now) memory.old }
{
    for (index, vertex) in vertices.iter().enumerate() {
        write_value(memory, index, vertex.value).unwrap();
    }
}

/// The record of the row that a slot holds, in the field of the slot; nothing if there is no such row.
fn write_slot<N: Kind>(
    rows: &[Row<N>],
    held: Option<u16>,
    sizes: Sizes,
    slot: usize,
    memory: &mut [u8],
)
    requires there { slot < sizes.n }
    requires room { seal_length sizes.n sizes.r ≤ length memory.old }
    ensures { memory.new ≡ slot_written N.spelling rows.now sizes.r slot held memory.old }
{
    let Some(row) = held.and_then(|i| rows.get(usize::from(i))) else {
        return;
    };
    write_record(memory, sizes, slot, row.setting, &row.name).unwrap();
}

/// The records of the rows that the slots hold, each in the field of its slot.
fn write_records<N: Kind>(rows: &[Row<N>], slots: &[Option<u16>], sizes: Sizes, memory: &mut [u8])
    requires there { length slots.now ≤ sizes.n }
    requires room { seal_length sizes.n sizes.r ≤ length memory.old }
    ensures { memory.new ≡ records_written N.spelling rows.now slots.now sizes.r (length slots.now) memory.old }
{
    for (slot, held) in slots.iter().enumerate() {
        write_slot(rows, *held, sizes, slot, memory);
    }
}

/// Writes the string of a plate at the start of the memory: the kind number, the sizes, the seed,
/// the values of the first 2r vertices, and for each of the first n slots the record of the row
/// whose number it holds. A slot without a row writes nothing. Answers the length of the string;
/// none exactly if the memory is shorter or a list has too few places, and then nothing changes.
pub fn write_plate<N: Kind>(
    rows: &[Row<N>],
    vertices: &[Vertex],
    slots: &[Option<u16>],
    sizes: Sizes,
    seed: Seed,
    memory: &mut [u8],
) -> Option<usize>
    ensures { MatchOption result (SealRefused (seal_fits sizes.n sizes.r (length memory.old) (length vertices.now) (length slots.now)) memory.old memory.new) (λ k. SealWritten (seal_fits sizes.n sizes.r (length memory.old) (length vertices.now) (length slots.now)) N.number N.spelling sizes.n sizes.r seed.value rows.now vertices.now slots.now memory.old memory.new k) }
{
    let n = usize::from(sizes.n());
    let r = usize::from(sizes.r());
    if !fits(sizes, memory.len(), vertices.len(), slots.len()) {
        return None;
    }
    write_front::<N>(sizes, seed, memory);
    write_values(&vertices[..2 * r], memory);
    write_records(rows, &slots[..n], sizes, memory);
    Some(string_length(sizes))
}

#[cfg(test)]
mod tests {
    use super::*;
    use graph::rows::Place;
    use names::point::PointName;
    use std::test::Fail;

    const NAME_A: &[u8; 48] =
        b"\x01\x00\x01\x01\x02\x00\x04\x00\x01\x00\x01\x03\x00\x04\x00\x00\x00\x01\x04\x00\x04\x00\x00\x00\x00\x05\x00\x13\x01\x2C\x01\x41\x00\x00\x00\x00\x00\x00\x00\x00\x00\x00\x00\x00\x00\x00\x00\xFF";

    fn vertex(value: u16) -> Vertex {
        Vertex {
            first: 65535,
            degree: 9,
            value,
            place: Place::Waits,
        }
    }

    // The 47 bytes of the plate of the name A; the byte after them stays. One byte less is refused.
    #[test]
    fn string_of_name_a(rt: HostRuntime) -> Result<(), Fail> {
        let sizes = Sizes::new(1, 1)?;
        let seed = Seed::new(1)?;
        let rows = [Row {
            name: PointName::new(b"A")?,
            setting: 300,
        }];
        let vertices = [vertex(0), vertex(0)];
        let mut memory = [0xFF; 48];
        assert_eq!(rt;
            write_plate(&rows, &vertices, &[Some(0)], sizes, seed, &mut memory),
            Some(47)
        );
        assert_eq!(rt; memory, *NAME_A);
        let mut short = [0xFF; 46];
        assert_eq!(rt;
            write_plate(&rows, &vertices, &[Some(0)], sizes, seed, &mut short),
            None
        );
        assert_eq!(rt; short, [0xFF; 46]);
        Ok(())
    }

    // Each record is in the field of its slot, and a slot that names no row is left as it was.
    #[test]
    fn records_by_slots(rt: HostRuntime) -> Result<(), Fail> {
        let row_a = Row {
            name: PointName::new(b"A")?,
            setting: 300,
        };
        let row_b = Row {
            name: PointName::new(b"B")?,
            setting: 7,
        };
        let slots = [Some(1), Some(2), Some(0), None];
        let mut memory = [0xFF; 113];
        let written = write_plate(
            &[row_a, row_b],
            &[vertex(513), vertex(2)],
            &slots,
            Sizes::new(4, 1)?,
            Seed::new(1)?,
            &mut memory,
        );
        assert_eq!(rt; written, Some(113));
        assert_eq!(rt; (memory[21], memory[22], memory[24]), (2, 1, 2));
        assert_eq!(rt; (memory[31], memory[47], memory[75]), (66, 255, 65));
        assert_eq!(rt; memory[91], 255);
        Ok(())
    }
}
