ghost use Rattle.std.specs.Prelude.{OnOk, IfOk, [], string_bytes};
ghost use Rattle.typing.specs.Lines.{AddsLines};

use batch::bench::Bench;
use batch::plate::show;
use batch::stopped::Stopped;
use listing::hashed::Hashed;
use listing::report::{Ending, report as report_on};
use runs::fault::PressFault;
use std::alloc::{AllocError, Global};
use typing::numbers::Capped;
use typing::text::add_line;
use typing::typed::Typed;
use ways::stride::StrideWay;

// Says where a pressing stopped and why, with the names that clash.
fn stop<N: Typed>(list: &Hashed<N>, stopped: Stopped, out: &mut String) -> Result<(), AllocError>
    ensures { OnOk result (AddsLines (string_bytes out.old) (string_bytes out.new)) }
{
    let clash = match stopped.fault {
        PressFault::Clash => list.clash()?,
        _ => None,
    };
    let stopped = stopped.to_string(*out.allocator())?;
    match clash {
        Some((first, second)) => {
            add_line(out, format_args!("{stopped}: names {first} and {second}"))
        }
        None => add_line(out, stopped),
    }
}

/// Presses the names, and ends the report with what came of it.
struct Pressed;

impl Ending for Pressed {
    fn end<N: Typed>(
        list: &Hashed<N>,
        way: Option<StrideWay>,
        out: &mut String,
    ) -> Result<(), AllocError> {
        let (Some(way), Some(first)) = (way, list.names.first()) else {
            return Ok(());
        };
        let mut bench = Bench::new(*out.allocator(), first.name)?;
        let (r, seed) = (list.sizes.r(), list.seed.value());
        match bench.press(&list.names, r, seed, &way) {
            Ok(sealed) => show(&list.names, &list.triples, list.sizes, &bench, sealed, out),
            Err(stopped) => stop(list, stopped, out),
        }
    }
}

/// The report on a list: its first line is `KIND R SEED`, each other one a name and a setting.
pub fn report(heap: Global, text: &str) -> Result<String, AllocError>
    ensures { IfOk result (λ report. AddsLines [] (string_bytes report)) }
{
    report_on::<Capped, Pressed>(heap, text)
}
