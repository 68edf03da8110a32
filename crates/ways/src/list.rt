ghost use Rattle.std.specs.Prelude.{◌≡◌, ℕ, ◌<◌, ◌≤◌, ⊤, true, false, not, [], ◌∷◌, length, MatchResult, slice_index_or, slice_set};
ghost use Rattle.ways.specs.Faults.{ListRefused};
ghost use Rattle.ways.specs.Listing.{EachOnce, Listed, list_meaning};
ghost use Rattle.ways.specs.Laws.{list_permutes};

use crate::fault::WayFault;
use crate::way::Way;
use std::alloc::AllocError;
use std::convert::AsSlice;

/// The way that reads its rotations from a list, lent or its own, the same for every level.
#[derive(Drop)]
pub struct ListWay<L: AsSlice<u16>> {
    rotations: L,
    ghost ok: { Listed (L.items rotations) },
}

impl<L: AsSlice<u16> + Copy> Clone for ListWay<L> {
    ghost is_clone = { λ x y. y ≡ x };

    ghost is_infallible = { λ _. ⊤ };

    fn clone(&self) -> Result<ListWay<L>, AllocError> {
        Ok(*self)
    }
}

impl<L: AsSlice<u16> + Copy> Copy for ListWay<L> {}

// Marks v, and says whether it was unmarked.
fn mark(marks: &mut [bool], v: usize) -> bool
    requires { v < length marks.old }
    ensures fresh { result ≡ not (slice_index_or marks.old v false) }
    ensures marked { marks.new ≡ slice_set marks.old v true }
{
    let fresh = !marks[v];
    marks[v] = true;
    fresh
}

// Whether the list holds each number below its length once; one pass, with a mark for each number.
fn each_once(xs: &[u16]) -> bool
    requires { length xs.now ≤ 1024 }
    ensures yes { result ≡ true → EachOnce xs.now }
    ensures other { result ≡ false → EachOnce xs.now → ⊥ }
{
    let mut marks = [false; 1024];
    for x in xs {
        let v = *x as usize;
        if v >= xs.len() || !mark(&mut marks, v) {
            return false;
        }
    }
    true
}

// Refuses exactly the lists that make no way.
fn check_list(rotations: &[u16]) -> Result<(), WayFault>
    ensures { MatchResult result (λ _. Listed rotations.now) (λ e. ListRefused rotations.now e) }
{
    if !(1..=1024).contains(&rotations.len()) {
        return Err(WayFault::BrokenRule);
    }
    if !each_once(rotations) {
        return Err(WayFault::NotEachOnce);
    }
    Ok(())
}

impl<L: AsSlice<u16> + Drop> ListWay<L> {
    /// The way of the list; refused with 2 for the size, and else with 3 if it is not each rotation once.
    pub fn new(rotations: L) -> Result<ListWay<L>, WayFault>
        ensures { MatchResult result (λ w. (w.rotations ≡ rotations) × Listed (L.items rotations)) (λ e. ListRefused (L.items rotations) e) }
    {
        check_list(rotations.as_slice())?;
        Ok(ListWay { rotations })
    }
}

impl<'a> ListWay<&'a [u16]> {
    /// The way of a lawful list; of any other list, the way of the one rotation 0.
    pub fn over(rotations: &'a [u16]) -> ListWay<&'a [u16]>
        ensures listed { Listed rotations.now → result.rotations.now ≡ rotations.now }
        ensures unlisted { (Listed rotations.now → ⊥) → result.rotations.now ≡ 0 ∷ [] }
    {
        ListWay::new(rotations).unwrap_or(ListWay { rotations: &[0] })
    }
}

impl<L: AsSlice<u16>> Way for ListWay<L> {
    ghost meaning = { λ w. list_meaning (L.items w.rotations) };

    fn size(&self) -> u16 {
        self.rotations.as_slice().len() as u16
    }

    fn rotation(&self, _level: usize, step: usize) -> u16 {
        let rotations = self.rotations.as_slice();
        rotations[step % rotations.len()]
    }

    ghost laws = { λ w. list_permutes (L.items w.rotations) w.ok };
}
