ghost use Rattle.std.specs.Prelude.{◌≡◌, ℕ, ◌≤◌, true, false, List, ◌++◌, length};
ghost use Rattle.runs.specs.Fitting.{turned};
ghost use Rattle.fitting.specs.Placing.{Apart, FilledAre, Tried, offsets, placed};

use crate::level::LevelName;
use ways::way::Way;

/// Whether no two names of the level have one offset mod n: one pass, with a mark for each.
fn are_apart(level: &[LevelName], n: usize) -> bool
    requires { (1 ≤ n) × (n ≤ 1024) }
    ensures yes { result ≡ true → Apart n (offsets level.now) }
    ensures other { result ≡ false → Apart n (offsets level.now) → ⊥ }
{
    let mut marks = [false; 1024];
    for name in level {
        let slot = usize::from(name.offset) % n;
        if marks[slot] {
            return false;
        }
        marks[slot] = true;
    }
    true
}

/// The first rotation of the way that fits the level, and the tries; none if no rotation fits,
/// or if the way has another size than there are slots. A slot is filled if it holds a row.
pub fn first_that_fits<W: Way>(
    way: &W,
    number: usize,
    level: &[LevelName],
    slots: &[Option<u16>],
) -> Option<(u16, u16)>
    ensures { Tried (W.meaning way.now) number (offsets level.now) slots.now result }
{
    let n = slots.len();
    if usize::from(way.size()) != n {
        return None;
    }
    if !are_apart(level, n) {
        return None;
    }
    let mut step: u16 = 0;
    let (v, tries) = 'trying: loop {
        if usize::from(step) >= n {
            return None;
        }
        let v = way.rotation(number, usize::from(step));
        step += 1;
        'placing: for name in level {
            if slots[(usize::from(name.offset) + usize::from(v)) % n].is_some() {
                continue 'trying;
            }
        }
        break (v, step);
    };
    Some((v, tries))
}

/// Fills the slot of each name of the level under the rotation with the row of the name.
pub fn fill(level: &[LevelName], rotation: u16, slots: &mut [Option<u16>])
    ensures rows { slots.new ≡ placed rotation level.now slots.old }
    ensures fills { (filled : List ℕ) → FilledAre filled slots.old → FilledAre (filled ++ turned (length slots.old) rotation (offsets level.now)) slots.new }
{
    let n = slots.len();
    if n == 0 {
        return;
    }
    for name in level {
        slots[(usize::from(name.offset) + usize::from(rotation)) % n] = Some(name.row);
    }
}

#[cfg(test)]
mod tests {
    use super::*;
    use std::test::Fail;
    use ways::stride::StrideWay;

    #[test]
    fn third_rotation_fits(rt: HostRuntime) -> Result<(), Fail> {
        let mut slots = [Some(2), None, Some(5), None, None, Some(3)];
        let level = [
            LevelName { row: 0, offset: 4 },
            LevelName { row: 1, offset: 5 },
        ];
        let way = StrideWay::new(6, 1, 1)?;
        assert_eq!(rt; first_that_fits(&way, 3, &level, &slots), Some((5, 3)));
        fill(&level, 5, &mut slots);
        assert_eq!(rt; slots[3], Some(0));
        assert_eq!(rt; slots[4], Some(1));
        Ok(())
    }

    #[test]
    fn alike_offsets_and_other_sizes(rt: HostRuntime) -> Result<(), Fail> {
        let slots = [None; 6];
        let level = [
            LevelName { row: 0, offset: 1 },
            LevelName { row: 1, offset: 7 },
        ];
        assert_eq!(rt;
            first_that_fits(&StrideWay::new(6, 1, 1)?, 0, &level, &slots),
            None
        );
        assert_eq!(rt;
            first_that_fits(&StrideWay::new(5, 1, 1)?, 0, &[], &slots),
            None
        );
        Ok(())
    }
}
