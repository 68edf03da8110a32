ghost use Rattle.std.specs.Prelude.{IfOk, [], string_bytes};
ghost use Rattle.typing.specs.Lines.{AddsLines};

use listing::hashed::Hashed;
use listing::report::{Ending, report as report_on};
use std::alloc::{AllocError, Global};
use typing::numbers::Whole;
use typing::text::add_line;
use typing::typed::Typed;
use ways::stride::StrideWay;

/// Ends a report with whether two names clash.
struct Clashes;

impl Ending for Clashes {
    fn end<N: Typed>(
        list: &Hashed<N>,
        _way: Option<StrideWay>,
        out: &mut String,
    ) -> Result<(), AllocError> {
        match list.clash()? {
            Some((first, second)) => {
                add_line(out, format_args!("names {first} and {second} clash"))
            }
            None => add_line(out, "no two names clash"),
        }
    }
}

/// The report on a list: its first line is `KIND R SEED`, each other one a name and a setting.
pub fn report(heap: Global, text: &str) -> Result<String, AllocError>
    ensures { IfOk result (λ report. AddsLines [] (string_bytes report)) }
{
    report_on::<Whole, Clashes>(heap, text)
}
