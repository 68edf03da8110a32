ghost use Rattle.std.specs.Prelude.{◌≡◌, ℕ, ◌*◌, ◌<◌, List, length, nat_lt};
ghost use Rattle.std.specs.Iterator.{YieldsFirst, item_count};
ghost use Rattle.hashing.specs.Triples.{Triple};
ghost use Rattle.graph.specs.Chains.{at_vertex, row, Graph};
ghost use Rattle.graph.specs.Walks.{walk, rows_where};

use super::rows::{Edge, Vertex};

/// A walk along the chain of a vertex: its edges with their rows, the latest first. It only goes
/// down, so a link that leads up, or to no edge, ends it.
#[derive(Drop)]
pub struct Chain<'a> {
    edges: &'a [Edge],
    at: u16,
    low: bool,
}

impl<'a> Chain<'a> {
    /// The chain to which this link leads, of a vertex on this side.
    pub fn new(edges: &'a [Edge], at: u16, low: bool) -> Chain<'a>
        ensures starts { (result.edges.now ≡ edges.now) × (result.at ≡ at) × (result.low ≡ low) }
        ensures exact { (es : List Triple) (r v : ℕ) (vertices : List Vertex) → Graph es r edges.now vertices → length es ≡ length edges.now → v < 2 * r → at ≡ (row vertices v).first → low ≡ nat_lt v r → walk low edges.now at ≡ rows_where (at_vertex es v) edges.now (length es) }
    {
        Chain { edges, at, low }
    }
}

impl<'a> Iterator for Chain<'a> {
    type Item = (usize, Edge);

    ghost next_gives = { YieldsFirst (λ s. walk s.low s.edges.now s.at) };

    ghost remaining = { item_count (λ s. walk s.low s.edges.now s.at) };

    fn next(&mut self) -> Option<(usize, Edge)> {
        let row = usize::from(self.at).checked_sub(1)?;
        let e = *self.edges.get(row)?;
        self.edges = &self.edges[0..row];
        self.at = e.onward(self.low);
        Some((row, e))
    }
}
