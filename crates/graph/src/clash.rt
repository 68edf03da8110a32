ghost use Rattle.std.specs.Prelude.{◌≡◌, ℕ, ◌<◌, ◌≤◌, List, length, MatchOption};
ghost use Rattle.hashing.specs.Triples.{Triple};
ghost use Rattle.runs.specs.Runs.{same_triple};
ghost use Rattle.graph.specs.Chains.{of_tuple, Edges, Repeats, clashes};

use super::chain::Chain;
use super::rows::Edge;

fn alike(a: (u16, u16, u16), b: (u16, u16, u16)) -> bool
    ensures { result ≡ same_triple (of_tuple a) (of_tuple b) }
{
    a.0 == b.0 && a.1 == b.1 && a.2 == b.2
}

// Whether the triple of edge i stands before it too: only edges at its first vertex can have it.
fn is_repeated(edges: &[Edge], i: usize) -> bool
    requires { i < length edges.now }
    ensures { (es : List Triple) → i < length es → Edges es edges.now → Repeats es i result }
{
    let e = edges[i];
    Chain::new(&edges[0..i], e.next1, true).any(|(_, f)| alike(
        (e.h0, e.h1, e.h2),
        (f.h0, f.h1, f.h2),
    ))
}

// Whether two of the edges have equal triples.
fn any_repeated(edges: &[Edge]) -> bool
    ensures { (es : List Triple) → length es ≡ length edges.now → Edges es edges.now → result ≡ clashes es }
{
    (0..edges.len()).any(|i| is_repeated(edges, i))
}

/// Whether two of the first n edges have equal triples, which is a clash. None exactly if there are
/// not n edges.
pub fn clash(edges: &[Edge], n: usize) -> Option<bool>
    ensures { MatchOption result (length edges.now < n) (λ r. (n ≤ length edges.now) × ((es : List Triple) → length es ≡ n → Edges es edges.now → r ≡ clashes es)) }
{
    if n > edges.len() {
        return None;
    }
    Some(any_repeated(&edges[0..n]))
}
