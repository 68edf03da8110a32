ghost use Rattle.std.specs.Prelude.{◌≡◌, ◌++◌, [], ◌∷◌, OnErr, OnOk, string_bytes, IfOk, IsOk, Some, flat_map, decimal};
ghost use Rattle.std.specs.Fmt.{AppendsText, with_newline};

use std::alloc::{AllocError, Global};
use std::fmt;

/// Adds a text that was made to the end of another; where memory is short the other stays.
pub fn append(out: &mut String, text: Result<String, AllocError>) -> Result<(), AllocError>
    ensures added { OnOk result (IfOk text (λ t. string_bytes out.new ≡ string_bytes out.old ++ string_bytes t)) }
    ensures made { OnOk result (IsOk text) }
    ensures stays { OnErr result (string_bytes out.new ≡ string_bytes out.old) }
{
    let text = text?;
    out.push_str(text.as_str())
}

/// How long a line is thought to be, in bytes; a longer one takes more memory when it is made.
const LINE: usize = 80;

// A text and a line's end.
fn line<D: fmt::Display + Drop>(heap: Global, text: D) -> Result<String, AllocError>
    ensures { IfOk result (λ l. AppendsText [] (string_bytes l) (with_newline (D.output text))) }
{
    let mut line = String::with_capacity(heap, LINE)?;
    writeln!(line, "{text}")?;
    Ok(line)
}

/// Adds a text and a line's end to the end of another; where memory is short the other stays.
pub fn add_line<D: fmt::Display + Drop>(out: &mut String, text: D) -> Result<(), AllocError>
    ensures bytes { OnOk result (AppendsText (string_bytes out.old) (string_bytes out.new) (with_newline (D.output text))) }
    ensures stays { OnErr result (string_bytes out.new ≡ string_bytes out.old) }
{
    let heap = *out.allocator();
    append(out, line(heap, text))
}

/// Numbers, each after a space.
#[derive(Clone, Copy, Drop)]
pub struct Numbers<'a>(pub &'a [u16]);

impl<'a> fmt::Display for Numbers<'a> {
    ghost output = { λ numbers. Some (flat_map (λ x. 32 ∷ decimal x) numbers.0.now) };

    fn fmt<W: fmt::Write>(&self, f: &mut fmt::Formatter<W>) -> fmt::Result {
        for x in self.0 {
            write!(f, " {x}")?;
        }
        Ok(())
    }
}
