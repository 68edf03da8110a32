ghost use Rattle.std.specs.Prelude.{◌≡◌};
ghost use Rattle.runs.specs.Runs.{ample};
ghost use Rattle.pressing.specs.Memory.{held, lent};

use graph::rows::{Edge, Row, Vertex};
use hashing::sizes::{self, MOST_ON_A_SIDE};
use hashing::tables::TABLE_NUMBERS;
use orders::waiting::Waiting;

/// The most names of a pressing, and how many rows, edges and slots are lent at least.
pub const MOST_NAMES: usize = sizes::MOST_NAMES;

/// The most vertices, and how many vertices, heap places and ordered places are lent at least.
pub const MOST_VERTICES: usize = 2 * MOST_ON_A_SIDE;

/// The work lists that a caller lends to a call.
#[derive(Drop)]
pub struct Lists<'a, N> {
    pub rows: &'a mut [Row<N>],
    pub tables: &'a mut [u32],
    pub edges: &'a mut [Edge],
    pub vertices: &'a mut [Vertex],
    pub heap: &'a mut [Waiting],
    pub ordered: &'a mut [u16],
    pub slots: &'a mut [Option<u16>],
}

/// The lengths of the work lists that are lent.
#[derive(Clone, Copy)]
pub struct Lengths {
    pub rows: usize,
    pub tables: usize,
    pub edges: usize,
    pub vertices: usize,
    pub heap: usize,
    pub ordered: usize,
    pub slots: usize,
}

impl<N> Lists<'_, N> {
    /// Whether no work list is too short.
    pub fn are_ample(&self) -> bool
        ensures { result ≡ ample (lent (held self.now)) }
    {
        MOST_NAMES <= self.rows.len()
            && TABLE_NUMBERS <= self.tables.len()
            && MOST_NAMES <= self.edges.len()
            && MOST_VERTICES <= self.vertices.len()
            && MOST_VERTICES <= self.heap.len()
            && MOST_VERTICES <= self.ordered.len()
            && MOST_NAMES <= self.slots.len()
    }
}
