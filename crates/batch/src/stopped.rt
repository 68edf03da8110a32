ghost use Rattle.std.specs.Prelude.{◌≡◌, Ok, Err, MatchResult};

use runs::fault::PressFault;
use std::fmt;

/// A call of the pressing of a list.
#[derive(Clone, Copy, Drop)]
pub enum Call {
    /// The name of this number, from 1.
    Enter(usize),
    Map,
    Order,
    /// The level of this number.
    Fit(usize),
    Seal,
}

impl fmt::Display for Call {
    fn fmt<W: fmt::Write>(&self, f: &mut fmt::Formatter<W>) -> fmt::Result {
        match *self {
            Call::Enter(place) => write!(f, "name {place}"),
            Call::Map => write!(f, "map"),
            Call::Order => write!(f, "order"),
            Call::Fit(level) => write!(f, "level {level}"),
            Call::Seal => write!(f, "seal"),
        }
    }
}

/// The call at which a pressing stopped, and why.
#[derive(Clone, Copy, Drop)]
pub struct Stopped {
    pub call: Call,
    pub fault: PressFault,
}

impl fmt::Display for Stopped {
    fn fmt<W: fmt::Write>(&self, f: &mut fmt::Formatter<W>) -> fmt::Result {
        let (call, fault) = (self.call, self.fault);
        write!(f, "{call}: {fault}")
    }
}

/// The answer to a call, or that the pressing stopped there.
pub fn answered<T>(call: Call, answer: Result<T, PressFault>) -> Result<T, Stopped>
    ensures { MatchResult answer (λ x. result ≡ Ok x) (λ f. result ≡ Err (record { call = call; fault = f })) }
{
    answer.map_err(|fault| Stopped { call, fault })
}
