//! The vertices that wait for their place in the order.
ghost use Rattle.std.specs.Prelude.{◌≡◌, ℕ, ◌+◌, ◌*◌, ◌<◌, ◌≤◌, Bool, ◌||◌, List, [], ◌∷◌, ◌++◌, length, take, drop, ◌==◌};
ghost use Rattle.hashing.specs.Triples.{Triple};
ghost use Rattle.runs.specs.Order.{degree, joined};
ghost use Rattle.graph.specs.Chains.{row, Graph};
ghost use Rattle.ordering.specs.Queue.{is_unseen, Queued, Replaced, Weighed, Greatest, degree_at, unseen_at, Led, Bounded, Resumed, Chosen, Low, fresh, SameRoom, HasSides, Numbered};

use graph::chain::Chain;
use graph::rows::{Edge, Place, Vertex};
use heap::{Heap, Ordered};
use orders::waiting::Waiting;

// Whether the vertex with this place has no ordered neighbour yet and is not ordered.
fn unseen(place: Place) -> bool
    ensures { result ≡ is_unseen place }
{
    matches!(place, Place::Unseen)
}

// All values are 0, and no vertex is seen.
pub(crate) fn reset(vertices: &mut [Vertex], m: usize)
    requires { m ≤ length vertices.old }
    ensures done { (v : ℕ) → v < m → row vertices.new v ≡ fresh (row vertices.old v) }
    ensures rest { drop m vertices.new ≡ drop m vertices.old }
{
    for x in &mut vertices[0..m] {
        x.value = 0;
        x.place = Place::Unseen;
    }
}

// Of the unseen vertices the one of greatest degree, above 0.
fn greatest(vertices: &[Vertex]) -> Option<u16>
    requires { Numbered vertices.now }
    ensures { Greatest (degree_at vertices.now) (unseen_at vertices.now) (length vertices.now) result }
{
    let mut best = None;
    let mut most = 0;
    for (v, x) in vertices.iter().enumerate() {
        if unseen(x.place) && most < x.degree {
            best = Some(v as u16);
            most = x.degree;
        }
    }
    best
}

// The same, if it has the degree of b, where no unseen vertex comes before b; the search begins at b.
fn resume(vertices: &[Vertex], b: u16) -> Option<u16>
    requires { Numbered vertices.now × Led (length vertices.now) vertices.now b }
    ensures { Resumed (length vertices.now) vertices.now result }
{
    let from = usize::from(b);
    let most = vertices[from].degree;
    let ahead = vertices[from..]
        .iter()
        .position(|x| unseen(x.place) && x.degree == most)?;
    Some((from + ahead) as u16)
}

// The same. The search goes on from `last`, the start of the component before, as long as there is one
// of its degree; only where the degree falls are all vertices looked at again.
fn start(vertices: &[Vertex], last: Option<u16>) -> Option<u16>
    requires { Numbered vertices.now × Bounded (length vertices.now) vertices.now last }
    ensures { Greatest (degree_at vertices.now) (unseen_at vertices.now) (length vertices.now) result }
{
    last.and_then(|b| resume(vertices, b))
        .or_else(|| greatest(vertices))
}

// Has the vertex u wait, if it was not seen before.
fn meet(vertices: &mut [Vertex], m: usize, u: u16, heap: &mut Heap<Waiting>)
    requires { m ≤ length vertices.old }
    ensures lent { SameRoom heap.old.items heap.new.items }
    ensures replaced { Replaced m vertices.old vertices.new }
    ensures queued { (weight : ℕ → ℕ) (vs : List ℕ) (seen : ℕ → Bool) → u < m → m ≤ length heap.old.items.now → Weighed m weight vertices.old → Queued m weight vs seen vertices.old (take heap.old.len heap.old.items.now) → Queued m weight vs (λ x. (x == u) || seen x) vertices.new (take heap.new.len heap.new.items.now) }
{
    let v = usize::from(u);
    if v < m && unseen(vertices[v].place) {
        let degree = vertices[v].degree;
        vertices[v].place = Place::Waits;
        let _ = heap.push(Waiting { degree, vertex: u });
    }
}

// The vertex that comes next: the first that waits, or else the start of a new component.
pub(crate) fn choose(
    vertices: &[Vertex],
    r: usize,
    last: &mut Option<u16>,
    heap: &mut Heap<Waiting>,
) -> Option<u16>
    requires { HasSides r vertices.now × Bounded (2 * r) vertices.now last.old }
    ensures lent { SameRoom heap.old.items heap.new.items }
    ensures bounded { Bounded (2 * r) vertices.now last.new }
    ensures low { Low (2 * r) result }
    ensures chosen { (es : List Triple) (vs : List ℕ) → Weighed (2 * r) (degree es) vertices.now → Queued (2 * r) (degree es) vs (joined es vs) vertices.now (take heap.old.len heap.old.items.now) → Chosen es r vs (take heap.old.len heap.old.items.now) (take heap.new.len heap.new.items.now) result }
{
    let Some(w) = heap.pop() else {
        *last = start(&vertices[0..2 * r], *last);
        return *last;
    };
    (usize::from(w.vertex) < 2 * r).then_some(w.vertex)
}

// Has the vertices wait that share an edge with v, if they were not seen before.
pub(crate) fn gather(
    edges: &[Edge],
    r: usize,
    vertices: &mut [Vertex],
    v: usize,
    heap: &mut Heap<Waiting>,
)
    requires { HasSides r vertices.old × (v < 2 * r) }
    ensures lent { SameRoom heap.old.items heap.new.items }
    ensures replaced { Replaced (2 * r) vertices.old vertices.new }
    ensures queued { (es : List Triple) (vs : List ℕ) → length es ≡ length edges.now → Graph es r edges.now vertices.old → 2 * r ≤ length heap.old.items.now → Queued (2 * r) (degree es) (vs ++ v ∷ []) (joined es vs) vertices.old (take heap.old.len heap.old.items.now) → Queued (2 * r) (degree es) (vs ++ v ∷ []) (joined es (vs ++ v ∷ [])) vertices.new (take heap.new.len heap.new.items.now) }
{
    let low = v < r;
    for (_, e) in Chain::new(edges, vertices[v].first, low) {
        meet(vertices, 2 * r, e.far(low), heap);
    }
}
