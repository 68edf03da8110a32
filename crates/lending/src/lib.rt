//! The work lists of a caller of a pressing, of full length.

#![tactic(auto)]

ghost use Rattle.std.specs.Prelude.{◌≡◌, IfOk, replicate};
ghost use Rattle.pressing.specs.Memory.{held};
ghost use Rattle.lending.specs.Full.{IsFull, whole};

use graph::rows::{Edge, Place, Row, Vertex};
use hashing::tables::TABLE_NUMBERS;
use names::kind::Kind;
use orders::waiting::Waiting;
use pressing::lists::{Lengths, Lists, MOST_NAMES, MOST_VERTICES};
use std::alloc::{AllocError, Global};

/// The lengths of the full lists, which are ample.
pub const FULL: Lengths = Lengths {
    rows: MOST_NAMES,
    tables: TABLE_NUMBERS,
    edges: MOST_NAMES,
    vertices: MOST_VERTICES,
    heap: MOST_VERTICES,
    ordered: MOST_VERTICES,
    slots: MOST_NAMES,
};

/// The length of the longest plate string, of 1,024 names with r 1,024.
pub const LONGEST_STRING: usize = 26645;

// What the lists hold before they are used: nothing that a pressing can lean on.
const USED_NUMBER: u32 = 0xDEAD_BEEF;

const USED_EDGE: Edge = Edge {
    h0: 65535,
    h1: 65535,
    h2: 3,
    next1: 65535,
    next2: 1,
};

const USED_VERTEX: Vertex = Vertex {
    first: 65535,
    degree: 65535,
    value: 65535,
    place: Place::At(9),
};

const USED_WAITING: Waiting = Waiting {
    degree: 65535,
    vertex: 65535,
};

/// The work lists for names of one kind.
#[derive(Drop)]
pub struct WorkLists<N> {
    pub rows: Vec<Row<N>>,
    pub tables: Vec<u32>,
    pub edges: Vec<Edge>,
    pub vertices: Vec<Vertex>,
    pub heap: Vec<Waiting>,
    pub ordered: Vec<u16>,
    pub slots: Vec<Option<u16>>,
}

/// Memory with the same item at each of `len` places.
pub fn filled<T: Copy>(heap: Global, item: T, len: usize) -> Result<Vec<T>, AllocError>
    ensures { IfOk result (λ v. v.items ≡ replicate len item) }
{
    (0..len).map(|_| item).collect(heap)
}

impl<N: Kind> WorkLists<N> {
    /// Full lists with arbitrary contents; each row has this name.
    pub fn new(heap: Global, name: N) -> Result<WorkLists<N>, AllocError>
        ensures { IfOk result IsFull }
    {
        let row = Row {
            name,
            setting: 65535,
        };
        Ok(WorkLists {
            rows: filled(heap, row, MOST_NAMES)?,
            tables: filled(heap, USED_NUMBER, TABLE_NUMBERS)?,
            edges: filled(heap, USED_EDGE, MOST_NAMES)?,
            vertices: filled(heap, USED_VERTEX, MOST_VERTICES)?,
            heap: filled(heap, USED_WAITING, MOST_VERTICES)?,
            ordered: filled(heap, 65535, MOST_VERTICES)?,
            slots: filled(heap, Some(77), MOST_NAMES)?,
        })
    }

    /// Lends the lists whole.
    pub fn lend(&mut self) -> Lists<'_, N>
        ensures { held result ≡ whole self.old }
    {
        Lists {
            rows: &mut self.rows,
            tables: &mut self.tables,
            edges: &mut self.edges,
            vertices: &mut self.vertices,
            heap: &mut self.heap,
            ordered: &mut self.ordered,
            slots: &mut self.slots,
        }
    }
}
