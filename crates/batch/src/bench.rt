ghost use Rattle.std.specs.Prelude.{◌≡◌, IfOk, replicate};
ghost use Rattle.lending.specs.Full.{IsFull};

use crate::stopped::{Call, Stopped, answered};
use graph::rows::Row;
use lending::{LONGEST_STRING, WorkLists, filled};
use names::kind::Kind;
use pressing::lists::MOST_VERTICES;
use pressing::press::Pressing;
use std::alloc::{AllocError, Global};
use ways::way::Way;

/// A pressing with its memory.
#[derive(Drop)]
pub struct Bench<N> {
    pressing: Pressing<N>,
    pub lists: WorkLists<N>,
    /// How many rotations each level tried.
    pub tries: Vec<u16>,
    pub string: Vec<u8>,
}

/// What a sealed plate came to.
#[derive(Clone, Copy, Drop)]
pub struct Sealed {
    /// How many vertices are ordered.
    pub levels: usize,
    /// The length of the plate string.
    pub len: usize,
}

impl<N: Kind> Bench<N> {
    /// A pressing without names; each row of its memory has this name.
    pub fn new(heap: Global, name: N) -> Result<Bench<N>, AllocError>
        ensures lists { IfOk result (λ b. IsFull b.lists) }
        ensures tries { IfOk result (λ b. b.tries.items ≡ replicate 2048 0) }
        ensures string { IfOk result (λ b. b.string.items ≡ replicate 26645 0) }
    {
        Ok(Bench {
            pressing: Pressing::new(),
            lists: WorkLists::new(heap, name)?,
            tries: filled(heap, 0, MOST_VERTICES)?,
            string: filled(heap, 0, LONGEST_STRING)?,
        })
    }

    // Enters the names, which count from 1.
    fn enter(&mut self, names: &[Row<N>]) -> Result<(), Stopped> {
        for (number, row) in (1usize..).zip(names) {
            let lists = self.lists.lend();
            let answer = self.pressing.enter(lists, row.name, row.setting);
            answered(Call::Enter(number), answer)?;
        }
        Ok(())
    }

    // Fits the levels, also those for whose tries there is no place.
    fn fit<W: Way>(&mut self, way: &W, levels: usize) -> Result<(), Stopped> {
        let mut tries = self.tries.iter_mut();
        for level in 0..levels {
            let lists = self.lists.lend();
            let fit = answered(Call::Fit(level), self.pressing.fit(lists, way))?;
            if let Some(place) = tries.next() {
                *place = fit.tries;
            }
        }
        Ok(())
    }

    // Maps and orders; answers how many vertices are ordered.
    fn order(&mut self, r: u16, seed: u32) -> Result<usize, Stopped> {
        let lists = self.lists.lend();
        answered(Call::Map, self.pressing.map(lists, r, seed))?;
        let lists = self.lists.lend();
        let levels = answered(Call::Order, self.pressing.order(lists))?;
        Ok(usize::from(levels))
    }

    /// Presses the names: enters, maps, orders, fits level by level, and seals.
    pub fn press<W: Way>(
        &mut self,
        names: &[Row<N>],
        r: u16,
        seed: u32,
        way: &W,
    ) -> Result<Sealed, Stopped> {
        self.enter(names)?;
        let levels = self.order(r, seed)?;
        self.fit(way, levels)?;
        let lists = self.lists.lend();
        let len = answered(Call::Seal, self.pressing.seal(lists, &mut self.string))?;
        Ok(Sealed { levels, len })
    }
}
