ghost use Rattle.std.specs.Prelude.{◌≡◌, ℕ, ◌+◌, ◌*◌, ◌<◌, ◌≤◌, List, length, take, drop, MatchOption, slice_set};
ghost use Rattle.graph.specs.Chains.{bare, row, headed, of_tuple, twice_at, edge_at, Graph};
ghost use Rattle.graph.specs.Mapping.{row_triples, map_fits, MapRefused, MapWritten};

use super::rows::{Edge, Place, Row, Vertex};
use hashing::sizes::{MOST_NAMES, Sizes};
use hashing::tables::TABLE_NUMBERS;
use hashing::triples::triple_of;
use names::kind::Kind;

const BARE: Vertex = Vertex {
    first: 0,
    degree: 0,
    value: 0,
    place: Place::Unseen,
};

// Leaves the first m vertices without edges.
fn clear(vertices: &mut [Vertex], m: usize)
    requires { m ≤ length vertices.old }
    ensures cleared { (v : ℕ) → v < m → row vertices.new v ≡ bare }
    ensures rest { drop m vertices.new ≡ drop m vertices.old }
{
    vertices[0..m].fill(BARE);
}

// Puts the edge that `upto` leads to before the others at v, and answers the link to those.
fn attach(vertices: &mut [Vertex], v: usize, upto: u16) -> u16
    requires { (v < length vertices.old) × ((row vertices.old v).degree < 65535) }
    ensures others { result ≡ (row vertices.old v).first }
    ensures leads { vertices.new ≡ slice_set vertices.old v (headed upto (row vertices.old v)) }
{
    let x = &mut vertices[v];
    let others = x.first;
    x.first = upto;
    x.degree += 1;
    others
}

// Writes edge i, of this triple, and puts it before the others at its two vertices.
fn attach_edge(edges: &mut [Edge], vertices: &mut [Vertex], i: usize, triple: (u16, u16, u16))
    requires places { (i < length edges.old) × (i < 65535) × (triple.1 < triple.2) × (triple.2 < length vertices.old) }
    requires degrees { ((row vertices.old triple.1).degree < 65535) × ((row vertices.old triple.2).degree < 65535) }
    ensures edge { edges.new ≡ slice_set edges.old i (edge_at i (of_tuple triple) vertices.old) }
    ensures leads { vertices.new ≡ twice_at i (of_tuple triple) vertices.old }
{
    let (h0, h1, h2) = triple;
    let upto = (i + 1) as u16;
    let next1 = attach(vertices, usize::from(h1), upto);
    let next2 = attach(vertices, usize::from(h2), upto);
    edges[i] = Edge {
        h0,
        h1,
        h2,
        next1,
        next2,
    };
}

// Whether these lists have the places for a mapping.
fn fits<N: Kind>(
    count: usize,
    r: usize,
    rows: &[Row<N>],
    tables: &[u32],
    edges: &[Edge],
    vertices: &[Vertex],
) -> bool
    requires { r ≤ 1024 }
    ensures { result ≡ map_fits count r (length rows.now) (length tables.now) (length edges.now) (length vertices.now) }
{
    count <= MOST_NAMES
        && count <= rows.len()
        && TABLE_NUMBERS <= tables.len()
        && count <= edges.len()
        && 2 * r <= vertices.len()
}

/// Writes the graph of the names in the first `count` rows: the edge of each name's triple, and the
/// vertices 0 to 2r - 1. None exactly if there are more than 1,024 rows to map or a list is too short;
/// then nothing changes.
pub fn map_names<N: Kind>(
    rows: &[Row<N>],
    count: usize,
    tables: &[u32],
    sizes: Sizes,
    edges: &mut [Edge],
    vertices: &mut [Vertex],
) -> Option<()>
    ensures { MatchOption result (MapRefused (map_fits count sizes.r (length rows.now) (length tables.now) (length edges.old) (length vertices.old)) edges.old edges.new vertices.old vertices.new) (λ _. MapWritten (map_fits count sizes.r (length rows.now) (length tables.now) (length edges.old) (length vertices.old)) (row_triples N.spelling tables.now sizes.n sizes.r (take count rows.now)) count sizes.r edges.old edges.new vertices.old vertices.new) }
{
    let r = usize::from(sizes.r());
    if !fits(count, r, rows, tables, edges, vertices) {
        return None;
    }
    clear(vertices, 2 * r);
    for (i, row) in rows[0..count].iter().enumerate() {
        let triple = triple_of(tables, sizes, &row.name)?;
        attach_edge(edges, vertices, i, triple);
    }
    Some(())
}
