ghost use Rattle.std.specs.Prelude.{◌≡◌};
ghost use Rattle.orders.specs.Sooner.{sooner};
ghost use Rattle.std.proofs.Common.{rules};

use heap::Ordered;
use std::cmp::Reverse;

/// A vertex that waits for its place in the order of vertices, with its number of edges.
#[derive(Clone, Copy)]
pub struct Waiting {
    pub degree: u16,
    pub vertex: u16,
}

/// The greater degree first; of equal degrees the lower number, whichever came first.
impl Ordered for Waiting {
    ghost before = { sooner };

    ghost strict = { Prim.search rules };

    fn comes_before(&self, other: &Waiting) -> bool {
        (Reverse(self.degree), self.vertex) < (Reverse(other.degree), other.vertex)
    }
}
