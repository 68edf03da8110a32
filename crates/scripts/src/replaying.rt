ghost use Rattle.std.specs.Prelude.{◌≡◌, MatchOption};
ghost use Rattle.pressing.specs.Memory.{memory, held, left_in};
ghost use Rattle.scripts.specs.Script.{Performed, StepTaken, NotReplayed, Replayed};

use crate::script::{Call, Step};
use graph::rows::{Edge, Row, Vertex};
use names::kind::Kind;
use orders::waiting::Waiting;
use pressing::lists::Lists;
use pressing::press::Pressing;
use runs::answer::{Answer, Outcome};
use ways::way::Way;

// One call over the slices that it is lent.
fn perform<N: Kind, W: Way>(
    pressing: &mut Pressing<N>,
    call: &Call<N, W>,
    rows: &mut [Row<N>],
    tables: &mut [u32],
    edges: &mut [Edge],
    vertices: &mut [Vertex],
    heap: &mut [Waiting],
    ordered: &mut [u16],
    slots: &mut [Option<u16>],
    string: &mut [u8],
) -> Answer
    ensures { Performed N.spelling N.number W.meaning call.now pressing.old (memory rows.old tables.old edges.old vertices.old heap.old ordered.old slots.old) string.old result pressing.new (memory rows.new tables.new edges.new vertices.new heap.new ordered.new slots.new) string.new }
{
    let lists = Lists {
        rows: &mut *rows,
        tables: &mut *tables,
        edges: &mut *edges,
        vertices: &mut *vertices,
        heap: &mut *heap,
        ordered: &mut *ordered,
        slots: &mut *slots,
    };
    match call {
        Call::Enter(name, setting) => {
            let entered = pressing.enter(lists, *name, *setting);
            entered.map(|_| Outcome::Entered)
        }
        Call::Map(r, seed) => pressing.map(lists, *r, *seed).map(|_| Outcome::Mapped),
        Call::Order => pressing.order(lists).map(Outcome::Ordered),
        Call::Fit(way) => {
            let found = pressing.fit(lists, way);
            found.map(|fit| Outcome::Fitted(fit.rotation, fit.tries))
        }
        Call::Reopen => pressing.reopen().map(|_| Outcome::Reopened),
        Call::Seal => pressing.seal(lists, string).map(Outcome::Sealed),
    }
}

// One step of a script: its call, lent first parts of the lists and of the string memory.
fn take_step<N: Kind, W: Way>(
    pressing: &mut Pressing<N>,
    step: &Step<N, W>,
    rows: &mut [Row<N>],
    tables: &mut [u32],
    edges: &mut [Edge],
    vertices: &mut [Vertex],
    heap: &mut [Waiting],
    ordered: &mut [u16],
    slots: &mut [Option<u16>],
    string: &mut [u8],
) -> Answer
    ensures { StepTaken N.spelling N.number W.meaning step.now pressing.old (memory rows.old tables.old edges.old vertices.old heap.old ordered.old slots.old) string.old result pressing.new (memory rows.new tables.new edges.new vertices.new heap.new ordered.new slots.new) string.new }
{
    let lengths = step.lent.lists;
    let row_count = lengths.rows.min(rows.len());
    let table_count = lengths.tables.min(tables.len());
    let edge_count = lengths.edges.min(edges.len());
    let vertex_count = lengths.vertices.min(vertices.len());
    let heap_count = lengths.heap.min(heap.len());
    let ordered_count = lengths.ordered.min(ordered.len());
    let slot_count = lengths.slots.min(slots.len());
    let room = step.lent.string.min(string.len());
    perform(
        pressing,
        &step.call,
        &mut rows[0..row_count],
        &mut tables[0..table_count],
        &mut edges[0..edge_count],
        &mut vertices[0..vertex_count],
        &mut heap[0..heap_count],
        &mut ordered[0..ordered_count],
        &mut slots[0..slot_count],
        &mut string[0..room],
    )
}

/// Performs a script: its calls one after another on one pressing and one set of lists, each lent first
/// parts of the lists and of the string memory, and records every answer. None, with nothing done,
/// exactly if there are fewer places for answers than calls.
pub fn replay<N: Kind, W: Way>(
    script: &[Step<N, W>],
    pressing: &mut Pressing<N>,
    lists: Lists<'_, N>,
    string: &mut [u8],
    answers: &mut [Answer],
) -> Option<()>
    ensures { MatchOption result (NotReplayed script.now pressing.old (held lists.entry) string.old answers.old pressing.new (left_in lists.exit) string.new answers.new) (λ _. Replayed N.spelling N.number W.meaning script.now pressing.old (held lists.entry) string.old answers.old pressing.new (left_in lists.exit) string.new answers.new) }
{
    let Lists {
        rows,
        tables,
        edges,
        vertices,
        heap,
        ordered,
        slots,
    } = lists;
    if answers.len() < script.len() {
        return None;
    }
    for (i, step) in script.iter().enumerate() {
        answers[i] = take_step(
            pressing, step, rows, tables, edges, vertices, heap, ordered, slots, string,
        );
    }
    Some(())
}
