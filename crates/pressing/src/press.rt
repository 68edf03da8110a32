ghost use Rattle.std.specs.Prelude.{◌≤◌};
ghost use Rattle.runs.specs.Runs.{rank};

use runs::stage::Stage;
use std::marker::PhantomData;

/// A pressing for one kind of name. It keeps its stage, the number of names entered, r and seed of
/// the last accepted map, the next level and the number of levels; all else lies in the lists that
/// each call is lent.
#[derive(Drop)]
pub struct Pressing<N> {
    pub(crate) stage: Stage,
    pub(crate) count: usize,
    pub(crate) r: u16,
    pub(crate) seed: u32,
    pub(crate) level: u16,
    pub(crate) levels: u16,
    pub(crate) kind: PhantomData<N>,
    ghost few_names: { count ≤ 1024 },
    ghost some_name: { (1 ≤ rank stage → 1 ≤ count) },
    ghost some_vertex: { (1 ≤ rank stage → 1 ≤ r) },
    ghost few_vertices: { r ≤ 1024 },
    ghost seed_low: { (1 ≤ rank stage → 1 ≤ seed) },
    ghost seed_high: { seed ≤ 2147483646 },
    ghost few_levels: { levels ≤ 2048 },
    ghost level_low: { level ≤ 2048 },
}
