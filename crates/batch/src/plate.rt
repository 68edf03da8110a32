ghost use Rattle.std.specs.Prelude.{OnOk, string_bytes};
ghost use Rattle.typing.specs.Lines.{AddsLines};

use crate::bench::{Bench, Sealed};
use graph::rows::{Row, Vertex};
use hashing::sizes::Sizes;
use std::alloc::AllocError;
use typing::text::{Numbers, add_line};
use typing::typed::Typed;

/// How many bytes of a string are shown.
const SHOWN: usize = 32;

// The first `len` items, or all if there are fewer.
fn first<T>(items: &[T], len: usize) -> &[T] {
    items.get(0..len).unwrap_or(items)
}

// The slot of a name: the sum of its first number and of its vertices' values, mod n.
fn slot(triple: (u16, u16, u16), vertices: &[Vertex], n: u16) -> Option<usize> {
    let (h0, h1, h2) = triple;
    let a = vertices.get(usize::from(h1))?;
    let b = vertices.get(usize::from(h2))?;
    let sum = h0 as usize + a.value as usize + b.value as usize;
    sum.checked_rem(usize::from(n))
}

// A line for each name with its slot.
fn slots<N: Typed>(
    names: &[Row<N>],
    triples: &[(u16, u16, u16)],
    vertices: &[Vertex],
    n: u16,
    out: &mut String,
) -> Result<(), AllocError>
    ensures { OnOk result (AddsLines (string_bytes out.old) (string_bytes out.new)) }
{
    for (row, triple) in names.iter().zip(triples) {
        if let Some(slot) = slot(*triple, vertices, n) {
            let name = row.name.to_string(*out.allocator())?;
            add_line(out, format_args!("{name} slot {slot}"))?;
        }
    }
    Ok(())
}

// The lines on order, values and tries.
fn levels<N: Typed>(
    bench: &Bench<N>,
    r: u16,
    levels: usize,
    out: &mut String,
) -> Result<(), AllocError>
    ensures { OnOk result (AddsLines (string_bytes out.old) (string_bytes out.new)) }
{
    let vertices = first(&bench.lists.vertices, usize::from(r) * 2);
    let values: Vec<u16> = vertices
        .iter()
        .map(|vertex| vertex.value)
        .collect(*out.allocator())?;
    let (order, values) = (
        Numbers(first(&bench.lists.ordered, levels)),
        Numbers(&values),
    );
    let tries = Numbers(first(&bench.tries, levels));
    add_line(
        out,
        format_args!("order{order}\nvalues{values}\ntries{tries}"),
    )
}

/// The lines on a sealed plate.
pub fn show<N: Typed>(
    names: &[Row<N>],
    triples: &[(u16, u16, u16)],
    sizes: Sizes,
    bench: &Bench<N>,
    sealed: Sealed,
    out: &mut String,
) -> Result<(), AllocError>
    ensures { OnOk result (AddsLines (string_bytes out.old) (string_bytes out.new)) }
{
    levels(bench, sizes.r(), sealed.levels, out)?;
    slots(names, triples, &bench.lists.vertices, sizes.n(), out)?;
    let len = sealed.len;
    let start = first(&bench.string, len.min(SHOWN));
    let (shown, hex) = (start.len(), hex::encode(*out.allocator(), start)?);
    add_line(
        out,
        format_args!("string of {len} bytes, the first {shown}: {hex}"),
    )
}
