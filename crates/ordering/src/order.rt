ghost use Rattle.std.specs.Prelude.{◌≡◌, ℕ, ◌*◌, ◌<◌, ◌≤◌, List, length, drop, MatchOption};
ghost use Rattle.hashing.specs.Triples.{Triple};
ghost use Rattle.graph.specs.Chains.{Graph};
ghost use Rattle.ordering.specs.Queue.{HasSides, Begun, OrderedGraph, order_fits, OrderRefused, OrderWritten};

use super::queue::{choose, gather, reset};
use graph::rows::{Edge, Place, Vertex};
use hashing::sizes::MOST_ON_A_SIDE;
use heap::{Heap, Ordered};
use orders::waiting::Waiting;

// Orders the vertices over exactly 2r places for those that wait.
fn arrange(
    edges: &[Edge],
    r: usize,
    vertices: &mut [Vertex],
    room: &mut [Waiting],
    ordered: &mut [u16],
) -> usize
    requires { HasSides r vertices.old × (length room.old ≡ 2 * r) × (2 * r ≤ length ordered.old) }
    ensures low { result ≤ 2 * r }
    ensures begun { Begun (2 * r) vertices.old vertices.new }
    ensures rest { drop result ordered.new ≡ drop result ordered.old }
    ensures exact { (es : List Triple) → length es ≡ length edges.now → Graph es r edges.now vertices.old → OrderedGraph es r edges.now vertices.new ordered.new result }
{
    let m = 2 * r;
    reset(vertices, m);
    let mut heap = Heap::new(room);
    let mut last = None;
    for k in 0..m {
        let Some(v) = choose(vertices, r, &mut last, &mut heap) else {
            return k;
        };
        ordered[k] = v;
        vertices[v as usize].place = Place::At(k as u16);
        gather(edges, r, vertices, v as usize, &mut heap);
    }
    m
}

// Whether these lists have the places for an order.
fn fits(
    n: usize,
    r: usize,
    edges: &[Edge],
    vertices: &[Vertex],
    room: &[Waiting],
    ordered: &[u16],
) -> bool
    ensures { result ≡ order_fits n r (length edges.now) (length vertices.now) (length room.now) (length ordered.now) }
{
    r <= MOST_ON_A_SIDE
        && n <= edges.len()
        && 2 * r <= vertices.len()
        && 2 * r <= room.len()
        && 2 * r <= ordered.len()
}

/// Writes the order of the vertices of the first n edges, sets the values of all 2r vertices to 0,
/// and answers how many the order has. None exactly if r is above 1,024 or a list is too short; then
/// nothing changes.
pub fn order(
    edges: &[Edge],
    n: usize,
    r: usize,
    vertices: &mut [Vertex],
    room: &mut [Waiting],
    ordered: &mut [u16],
) -> Option<usize>
    ensures { MatchOption result (OrderRefused (order_fits n r (length edges.now) (length vertices.old) (length room.old) (length ordered.old)) vertices.old vertices.new room.old room.new ordered.old ordered.new) (λ k. OrderWritten (order_fits n r (length edges.now) (length vertices.old) (length room.old) (length ordered.old)) n r edges.now vertices.old vertices.new room.old room.new ordered.old ordered.new k) }
{
    if !fits(n, r, edges, vertices, room, ordered) {
        return None;
    }
    Some(arrange(&edges[0..n], r, vertices, &mut room[0..2 * r], ordered))
}
