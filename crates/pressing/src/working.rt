//! The work of map and order over plain lists that are long enough.
ghost use Rattle.std.specs.Prelude.{◌≡◌, ℕ, ◌*◌, ◌≤◌, List, ◌++◌, length, drop, replicate, None};
ghost use Rattle.pressing.specs.Work.{MapWorked, OrderWorked};

use graph::build::map_names;
use graph::clash::clash;
use graph::rows::{Edge, Row, Vertex};
use hashing::seed::Seed;
use hashing::sizes::Sizes;
use hashing::tables::{TABLE_NUMBERS, fill};
use names::kind::Kind;
use ordering::order::order;
use orders::waiting::Waiting;
use runs::fault::PressFault;

// Fills the tables from the seed, writes the graph of the first n rows, and refuses a clash.
pub(crate) fn map_lists<N: Kind>(
    rows: &[Row<N>],
    sizes: Sizes,
    seed: Seed,
    tables: &mut [u32],
    edges: &mut [Edge],
    vertices: &mut [Vertex],
) -> Result<(), PressFault>
    requires { (1024 ≤ length rows.now) × (12288 ≤ length tables.old) × (1024 ≤ length edges.old) × (2048 ≤ length vertices.old) }
    ensures { MapWorked N.spelling sizes.n sizes.r seed.value rows.now tables.old tables.new edges.old edges.new vertices.old vertices.new result }
{
    fill(tables, seed)?;
    let count = usize::from(sizes.n());
    map_names(
        rows,
        count,
        &tables[0..TABLE_NUMBERS],
        sizes,
        edges,
        vertices,
    )
    .ok_or(PressFault::ShortList)?;
    let clashes = clash(edges, count).ok_or(PressFault::ShortList)?;
    if clashes {
        return Err(PressFault::Clash);
    }
    Ok(())
}

// Writes the order of the vertices, sets their values to 0, empties the first n slots, and answers
// how many vertices are ordered.
pub(crate) fn order_lists(
    n: usize,
    r: usize,
    edges: &[Edge],
    vertices: &mut [Vertex],
    heap: &mut [Waiting],
    ordered: &mut [u16],
    slots: &mut [Option<u16>],
) -> u16
    requires { (n ≤ 1024) × (r ≤ 1024) × (1024 ≤ length edges.now) × (2048 ≤ length vertices.old) × (2048 ≤ length heap.old) × (2048 ≤ length ordered.old) × (1024 ≤ length slots.old) }
    ensures { OrderWorked n r edges.now vertices.old vertices.new heap.old heap.new ordered.old ordered.new slots.old slots.new result }
{
    slots[0..n].fill(None);
    order(edges, n, r, vertices, heap, ordered).unwrap_or(0) as u16
}
