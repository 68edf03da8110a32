ghost use Rattle.std.specs.Prelude.{OnOk, string_bytes};
ghost use Rattle.typing.specs.Lines.{AddsLines};

use graph::rows::Row;
use std::alloc::AllocError;
use std::str::Lines;
use typing::numbers::Reading;
use typing::text::add_line;
use typing::typed::{Typed, Unlisted};

// Says why the line of this number has no name.
fn unlisted<N: Typed>(at: usize, reason: Unlisted, out: &mut String) -> Result<(), AllocError>
    ensures { OnOk result (AddsLines (string_bytes out.old) (string_bytes out.new)) }
{
    match reason {
        Unlisted::Refused(fault) => {
            let (number, rule) = (fault.number(), N::rule());
            add_line(out, format_args!("line {at}: refused {number}: {rule}"))
        }
        Unlisted::Unread => add_line(
            out,
            format_args!("line {at}: not read: a name and a setting from 0 to 65535 are wanted"),
        ),
    }
}

/// The names of the lines after the first, and a line of the report for each that has none.
pub(crate) fn names_in<N: Typed, R: Reading>(
    lines: Lines<'_>,
    out: &mut String,
) -> Result<Vec<Row<N>>, AllocError>
    ensures { OnOk result (AddsLines (string_bytes out.old) (string_bytes out.new)) }
{
    let mut names = Vec::new(*out.allocator());
    for (at, line) in (2usize..).zip(lines) {
        match N::read::<R>(line.split_whitespace()) {
            Ok((name, setting)) => names.push(Row { name, setting })?,
            Err(reason) => unlisted::<N>(at, reason, out)?,
        }
    }
    Ok(names)
}
