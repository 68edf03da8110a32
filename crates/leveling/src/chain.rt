//! The names of a level, collected from the chain of its vertex.
ghost use Rattle.std.specs.Prelude.{◌≡◌, ℕ, ◌+◌, ◌*◌, ◌%◌, ◌<◌, ◌≤◌, ◌&&◌, List, length, take, if◌then◌else◌, Some, None, nat_lt};
ghost use Rattle.hashing.specs.Triples.{Triple};
ghost use Rattle.runs.specs.Order.{order};
ghost use Rattle.graph.specs.Chains.{row, Graph};
ghost use Rattle.ordering.specs.Queue.{HasSides, Placed};
ghost use Rattle.leveling.specs.Level.{comes_before, Valued, chain_names};

use fitting::level::LevelName;
use graph::chain::Chain;
use graph::rows::{Edge, Place, Vertex};

// Whether this place is one of the first `level` of the order.
fn is_earlier(place: Place, level: usize) -> bool
    ensures { result ≡ comes_before level place }
{
    matches!(place, Place::At(k) if usize::from(k) < level)
}

// The offset of a name with this first number whose edge ends at u, if u is earlier than the level.
fn offset_by(h0: u16, u: usize, vertices: &[Vertex], level: usize, n: usize) -> Option<u16>
    requires { (1 ≤ n) × (n ≤ 1024) }
    ensures { result ≡ (if nat_lt u (length vertices.now) && comes_before level (row vertices.now u).place then Some ((h0 + (row vertices.now u).value) % n) else None) }
{
    let x = vertices.get(u)?;
    if !is_earlier(x.place, level) {
        return None;
    }
    Some(((usize::from(h0) + usize::from(x.value)) % n) as u16)
}

// Writes the names of the level of v, the latest first, and answers how many there are: those of the
// edges that join v to a vertex with one of the first `level` places.
pub(crate) fn collect(
    edges: &[Edge],
    r: usize,
    vertices: &[Vertex],
    v: usize,
    level: usize,
    names: &mut [LevelName],
) -> usize
    requires { (1 ≤ length edges.now) × (length edges.now ≤ 1024) × HasSides r vertices.now × (v < 2 * r) × (length edges.now ≤ length names.old) }
    ensures few { result ≤ length edges.now }
    ensures told { (es : List Triple) (values : List ℕ) → length es ≡ length edges.now → Graph es r edges.now vertices.now → ((u : ℕ) → u < 2 * r → Placed (order es r) u (row vertices.now u).place) → Valued (2 * r) values vertices.now → take result names.new ≡ chain_names es (length edges.now) values (take level (order es r)) v (length edges.now) }
{
    let n = edges.len();
    let low = v < r;
    let mut k = 0;
    for (row, e) in Chain::new(edges, vertices[v].first, low) {
        if let Some(offset) = offset_by(
            e.h0,
            usize::from(e.far(low)),
            &vertices[..2 * r],
            level,
            n,
        ) {
            names[k] = LevelName {
                row: row as u16,
                offset,
            };
            k += 1;
        }
    }
    k
}
