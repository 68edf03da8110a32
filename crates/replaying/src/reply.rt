ghost use Rattle.std.specs.Prelude.{◌≡◌, OnErr, string_bytes};

use crate::uncalled::Uncalled;
use runs::answer::Answer;
use std::alloc::AllocError;
use std::fmt;
use typing::text::add_line;

/// What a line of a session is answered: what its call answers, or why it makes none.
pub type Reply = Result<Answer, Uncalled>;

/// A reply as text: what an accepted call came to, or the number of the refusal, with the level that
/// no rotation fits.
#[derive(Clone, Copy, Drop)]
pub struct Shown(pub Reply);

impl fmt::Display for Shown {
    fn fmt<W: fmt::Write>(&self, f: &mut fmt::Formatter<W>) -> fmt::Result {
        match self.0 {
            Ok(Ok(outcome)) => write!(f, "{outcome}"),
            Ok(Err(fault)) => {
                let number = fault.number();
                match fault.level() {
                    Some(level) => write!(f, "refused {number} {level}"),
                    None => write!(f, "refused {number}"),
                }
            }
            Err(reason) => write!(f, "{reason}"),
        }
    }
}

/// Adds a line with a reply; where memory is short the text stays.
pub(crate) fn say(reply: Reply, out: &mut String) -> Result<(), AllocError>
    ensures { OnErr result (string_bytes out.new ≡ string_bytes out.old) }
{
    add_line(out, Shown(reply))
}
