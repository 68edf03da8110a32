ghost use Rattle.std.specs.Prelude.{◌≡◌, ℕ};
ghost use Rattle.ways.specs.Permutation.{Meaning, Permutes, asked};

/// A way of trying. What is proved of a way rests on its meaning and its law alone.
pub trait Way {
    /// The size, and the rotation of each step at each level.
    ghost meaning: { Self → Meaning };

    /// The number of rotations, 1 to 1,024.
    fn size(&self) -> u16
        ensures { result ≡ (meaning self.now).size };

    /// The rotation numbered `step` mod the size, at `level` mod 2,048.
    fn rotation(&self, level: usize, step: usize) -> u16
        ensures { result ≡ asked (meaning self.now) level step };

    /// At every level the rotations are 0 to the size less one, each once.
    ghost laws: { (w : Self) → Permutes (meaning w) };
}
