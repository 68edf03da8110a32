ghost use Rattle.ways.specs.Permutation.{Permutes};
ghost use Rattle.mixed_ways.specs.declared.mixed.Mixed.TheVariants.{One, Other};

use ways::way::Way;

/// A way of either kind, with its meaning and its law.
#[derive(Drop)]
pub enum Mixed<A, B> {
    One(A),
    Other(B),
}

impl<A: Way, B: Way> Way for Mixed<A, B> {
    ghost meaning = { λ w. elim w [ One a ↦ A.Way.meaning a | Other b ↦ B.Way.meaning b ] };

    fn size(&self) -> u16 {
        match self {
            Mixed::One(way) => way.size(),
            Mixed::Other(way) => way.size(),
        }
    }

    fn rotation(&self, level: usize, step: usize) -> u16 {
        match self {
            Mixed::One(way) => way.rotation(level, step),
            Mixed::Other(way) => way.rotation(level, step),
        }
    }

    ghost laws = { λ w. elim w as (λ k. Permutes (elim k [ One a ↦ A.Way.meaning a | Other b ↦ B.Way.meaning b ])) [ One a ↦ A.Way.laws a | Other b ↦ B.Way.laws b ] };
}
