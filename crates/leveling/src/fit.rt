ghost use Rattle.std.specs.Prelude.{◌≡◌, ℕ, ◌*◌, ◌<◌, true, false, List, length, None, MatchOption, ◌≢◌, slice_index, slice_set};
ghost use Rattle.hashing.specs.Triples.{Triple};
ghost use Rattle.graph.specs.Chains.{row};
ghost use Rattle.leveling.specs.Level.{level_fits, valued, Unchanged, LevelGiven, LevelHeld, LevelFitted};

use crate::chain::collect;
use fitting::level::LevelName;
use fitting::slots::{fill, first_that_fits};
use graph::rows::{Edge, Vertex};
use hashing::sizes::{MOST_NAMES, MOST_ON_A_SIDE};
use ways::way::Way;

// Whether there are names, not too many, and these lists have the places for a fit.
fn fits(
    n: usize,
    r: usize,
    level: usize,
    edges: &[Edge],
    vertices: &[Vertex],
    ordered: &[u16],
    slots: &[Option<u16>],
) -> bool
    ensures { result ≡ level_fits n r level (length edges.now) (length vertices.now) (length ordered.now) (length slots.now) }
{
    1 <= n
        && n <= MOST_NAMES
        && n <= edges.len()
        && r <= MOST_ON_A_SIDE
        && 2 * r <= vertices.len()
        && level < ordered.len()
        && n <= slots.len()
}

/// Fits the level with this number: the first rotation of the way that fits its names becomes the
/// value of its vertex, and their slots hold their rows. Answers the rotation and the tries. None if no
/// rotation fits, if the way has another size than n, if there are no or more than 1,024 names, if r is
/// above 1,024, if the vertex is not one of the first 2r, or if a list is too short; then nothing changes.
pub fn fit_level<W: Way>(
    way: &W,
    level: usize,
    n: usize,
    r: usize,
    edges: &[Edge],
    vertices: &mut [Vertex],
    ordered: &[u16],
    slots: &mut [Option<u16>],
) -> Option<(u16, u16)>
    ensures short { level_fits n r level (length edges.now) (length vertices.old) (length ordered.now) (length slots.old) ≡ false → result ≡ None }
    ensures sized { ((W.meaning way.now).size ≢ n) → result ≡ None }
    ensures given { MatchOption result (Unchanged vertices.old vertices.new slots.old slots.new) (λ x. LevelGiven n (2 * r) (slice_index ordered.now level) x.0 vertices.old vertices.new slots.old slots.new) }
    ensures told { (es : List Triple) (values filled : List ℕ) → level_fits n r level (length edges.now) (length vertices.old) (length ordered.now) (length slots.old) ≡ true → (W.meaning way.now).size ≡ n → LevelHeld es r n values filled level edges.now vertices.old ordered.now slots.old → LevelFitted (W.meaning way.now) es r n values filled level edges.now vertices.new ordered.now slots.new result }
{
    if !fits(n, r, level, edges, vertices, ordered, slots) {
        return None;
    }
    let v = usize::from(ordered[level]);
    if v >= 2 * r {
        return None;
    }
    let mut names = [LevelName { row: 0, offset: 0 }; MOST_NAMES];
    let k = collect(&edges[0..n], r, vertices, v, level, &mut names);
    let (x, tries) = first_that_fits(way, level, &names[0..k], &slots[0..n])?;
    fill(&names[0..k], x, &mut slots[0..n]);
    vertices[v].value = x;
    Some((x, tries))
}

#[cfg(test)]
mod tests {
    use super::*;
    use graph::rows::Place;
    use std::process::Abort;
    use std::test::Fail;
    use ways::stride::StrideWay;

    fn edge(h0: u16, h1: u16, h2: u16, next1: u16, next2: u16) -> Edge {
        Edge {
            h0,
            h1,
            h2,
            next1,
            next2,
        }
    }

    fn vertex(first: u16, degree: u16, place: Place) -> Vertex {
        Vertex {
            first,
            degree,
            value: 0,
            place,
        }
    }

    // Fits six names with r = 3, level after level.
    fn fit_all(
        rt: &impl Abort,
        way: &StrideWay,
        edges: &[Edge],
        vertices: &mut [Vertex],
        ordered: &[u16],
        slots: &mut [Option<u16>],
        answers: &[(u16, u16)],
    ) {
        for (level, answer) in answers.iter().enumerate() {
            let fit = fit_level(way, level, 6, 3, edges, vertices, ordered, slots);
            assert_eq!(rt; fit, Some(*answer));
        }
    }

    #[test]
    fn worked(rt: HostRuntime) -> Result<(), Fail> {
        let edges = [
            edge(2, 0, 5, 0, 0),
            edge(3, 0, 5, 1, 1),
            edge(0, 2, 3, 0, 0),
            edge(3, 1, 5, 0, 2),
            edge(5, 1, 3, 4, 3),
            edge(1, 1, 3, 5, 5),
        ];
        let mut vertices = [
            vertex(2, 2, Place::At(3)),
            vertex(6, 3, Place::At(0)),
            vertex(3, 1, Place::At(4)),
            vertex(6, 3, Place::At(1)),
            vertex(0, 0, Place::Unseen),
            vertex(4, 3, Place::At(2)),
        ];
        let ordered = [1, 3, 5, 0, 2];
        let mut slots = [None; 7];
        let way = StrideWay::new(6, 1, 1)?;
        let answers = [(0, 1), (1, 1), (2, 1), (5, 3), (0, 3)];
        fit_all(
            &rt,
            &way,
            &edges,
            &mut vertices,
            &ordered,
            &mut slots,
            &answers,
        );
        assert_eq!(rt;
            slots,
            [Some(4), Some(2), Some(5), Some(0), Some(1), Some(3), None]
        );
        assert_eq!(rt; vertices[0].value, 5);
        assert_eq!(rt; vertices[5].value, 2);
        assert_eq!(rt;
            fit_level(&way, 5, 6, 3, &edges, &mut vertices, &ordered, &mut slots),
            None
        );
        Ok(())
    }
}
