ghost use Rattle.std.specs.Prelude.{◌≡◌, ℕ, true, false, MatchResult};
ghost use Rattle.ways.specs.Divisors.{Coprime, Gcd};
ghost use Rattle.ways.specs.Faults.{number};
ghost use Rattle.ways.specs.Stride.{StrideRule, stride_meaning};
ghost use Rattle.ways.specs.Laws.{stride_permutes};

use crate::fault::WayFault;
use crate::way::Way;

/// The way that goes on by a stride, from a start that moves with the level.
#[derive(Clone, Copy, Drop)]
pub struct StrideWay {
    size: u16,
    start: u16,
    stride: u16,
    ghost ok: { StrideRule size start stride },
}

// The greatest common divisor.
fn gcd(a: u16, b: u16) -> u16
    ensures { Gcd a b result }
{
    let mut x = a;
    let mut y = b;
    while y != 0 {
        (x, y) = (y, x % y);
    }
    x
}

// Whether no number above 1 divides both.
fn are_coprime(a: u16, b: u16) -> bool
    ensures yes { result ≡ true → Coprime a b }
    ensures other { result ≡ false → Coprime a b → ⊥ }
{
    gcd(a, b) == 1
}

impl StrideWay {
    /// The stride way of these numbers; refused with 2 exactly if they break the rule.
    pub fn new(size: u16, start: u16, stride: u16) -> Result<StrideWay, WayFault>
        ensures { MatchResult result (λ w. StrideRule size start stride × (w.size ≡ size) × (w.start ≡ start) × (w.stride ≡ stride)) (λ e. (number e ≡ 2) × (StrideRule size start stride → ⊥)) }
    {
        let in_range = (1..=1024).contains(&size) && start < size && (1..=size).contains(&stride);
        if !in_range || !are_coprime(size, stride) {
            return Err(WayFault::BrokenRule);
        }
        Ok(StrideWay {
            size,
            start,
            stride,
        })
    }
}

impl Way for StrideWay {
    ghost meaning = { λ w. stride_meaning w.size w.start w.stride };

    fn size(&self) -> u16 {
        self.size
    }

    fn rotation(&self, level: usize, step: usize) -> u16 {
        let n = usize::from(self.size);
        (((level % 2048) * usize::from(self.start) + (step % n) * usize::from(self.stride))
            % n) as u16
    }

    ghost laws = { λ w. stride_permutes w.size w.start w.stride w.ok };
}
