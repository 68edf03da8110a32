ghost use Rattle.std.specs.Prelude.{◌≡◌, if◌then◌else◌};

/// A name of a pressing with its setting.
#[derive(Clone, Copy)]
pub struct Row<N> {
    pub name: N,
    pub setting: u16,
}

/// Where a vertex is on its way into the order: it has no ordered neighbour yet, it has one and
/// waits, or it has the place of this number.
#[derive(Clone, Copy)]
pub enum Place {
    Unseen,
    Waits,
    At(u16),
}

/// The edge of a name, which joins the vertices h1 and h2 of its triple. Each vertex has a chain of
/// its edges, the latest first. A link of a chain is 0 at its end, and j + 1 where edge j comes
/// next: `next1` in the chain of h1, `next2` in that of h2.
#[derive(Clone, Copy)]
pub struct Edge {
    pub h0: u16,
    pub h1: u16,
    pub h2: u16,
    pub next1: u16,
    pub next2: u16,
}

impl Edge {
    /// The vertex at the other end, seen from the end on this side: h2 from the low one, h1 from the high.
    pub fn far(self, low: bool) -> u16
        ensures { result ≡ (if low then self.h2 else self.h1) }
    {
        if low { self.h2 } else { self.h1 }
    }

    /// The link to the next edge in the chain of the vertex on this side.
    pub fn onward(self, low: bool) -> u16
        ensures { result ≡ (if low then self.next1 else self.next2) }
    {
        if low { self.next1 } else { self.next2 }
    }
}

/// A vertex: the link to its latest edge, the number of its edges, the value that fitting gives it,
/// and its place in the order.
#[derive(Clone, Copy)]
pub struct Vertex {
    pub first: u16,
    pub degree: u16,
    pub value: u16,
    pub place: Place,
}
