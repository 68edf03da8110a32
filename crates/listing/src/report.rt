ghost use Rattle.std.specs.Prelude.{OnOk, IfOk, [], string_bytes};
ghost use Rattle.typing.specs.Lines.{AddsLines};

use crate::entries::names_in;
use crate::hashed::Hashed;
use crate::header::Header;
use crate::proposal::propose;
use names::cell::DayCell;
use names::point::PointName;
use std::alloc::{AllocError, Global};
use std::str::Lines;
use typing::kinds::NameKind;
use typing::numbers::Reading;
use typing::text::add_line;
use typing::typed::Typed;
use ways::stride::StrideWay;

/// How a program ends its report.
pub trait Ending {
    /// Ends the report on the names, for which this way was proposed.
    fn end<N: Typed>(
        list: &Hashed<N>,
        way: Option<StrideWay>,
        out: &mut String,
    ) -> Result<(), AllocError>
        ensures { OnOk result (AddsLines (string_bytes out.old) (string_bytes out.new)) };
}

// The report on a list of one kind.
fn report_on<N: Typed, R: Reading, E: Ending>(
    header: Header,
    lines: Lines<'_>,
    out: &mut String,
) -> Result<(), AllocError>
    ensures { OnOk result (AddsLines (string_bytes out.old) (string_bytes out.new)) }
{
    let names = names_in::<N, R>(lines, out)?;
    let (kind, r, seed, count) = (N::number(), header.r, header.seed, names.len());
    add_line(
        out,
        format_args!("kind {kind}, {count} names, r {r}, seed {seed}"),
    )?;
    match header.judged(count) {
        Ok((sizes, seed)) => {
            let list = Hashed::new(names, sizes, seed, out)?;
            let way = propose(sizes.n(), out)?;
            E::end(&list, way, out)
        }
        Err(fault) => {
            let refusal = fault.to_string(*out.allocator())?;
            add_line(out, refusal)
        }
    }
}

/// The report on a list: its first line is `KIND R SEED`, each other one a name and a setting.
pub fn report<R: Reading, E: Ending>(heap: Global, text: &str) -> Result<String, AllocError>
    ensures { IfOk result (λ report. AddsLines [] (string_bytes report)) }
{
    let mut out = String::new(heap);
    let mut lines = text.lines();
    match Header::read::<R>(lines.next().unwrap_or("")) {
        Ok(header) => match header.kind {
            NameKind::PointNames => report_on::<PointName, R, E>(header, lines, &mut out)?,
            NameKind::DayCells => report_on::<DayCell, R, E>(header, lines, &mut out)?,
        },
        Err(reason) => add_line(&mut out, reason)?,
    }
    Ok(out)
}
