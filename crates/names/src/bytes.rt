ghost use Rattle.std.specs.Prelude.{◌≡◌, drop};
ghost use Rattle.std.specs.Iterator.{YieldsFirst, item_count};

use crate::kind::Kind;

/// The bytes of a name's spelling, in their order.
#[derive(Drop)]
pub struct Bytes<'a, N> {
    name: &'a N,
    given: usize,
}

impl<'a, N: Kind> Bytes<'a, N> {
    /// All bytes of the name.
    pub fn of(name: &'a N) -> Bytes<'a, N>
        ensures { (result.name.now ≡ name.now) × (result.given ≡ 0) }
    {
        Bytes { name, given: 0 }
    }
}

impl<'a, N: Kind> Iterator for Bytes<'a, N> {
    type Item = u8;

    ghost next_gives = { YieldsFirst (λ s. drop s.given (N.spelling s.name.now)) };

    ghost remaining = { item_count (λ s. drop s.given (N.spelling s.name.now)) };

    fn next(&mut self) -> Option<u8> {
        if self.given >= self.name.len() {
            return None;
        }
        self.given += 1;
        Some(self.name.byte(self.given))
    }
}
