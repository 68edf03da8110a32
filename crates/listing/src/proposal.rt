ghost use Rattle.std.specs.Prelude.{OnOk, string_bytes};
ghost use Rattle.typing.specs.Lines.{AddsLines};

use std::alloc::{AllocError, Global};
use typing::text::{Numbers, add_line};
use ways::fault::WayFault;
use ways::stride::StrideWay;
use ways::way::Way;

// The first rotations of a way at level 1.
fn rotations<W: Way>(heap: Global, way: &W) -> Result<Vec<u16>, AllocError> {
    (0..way.size().min(8))
        .map(|step| way.rotation(1, usize::from(step)))
        .collect(heap)
}

// What the report says of a way that was proposed.
fn judged(heap: Global, way: Result<StrideWay, WayFault>) -> Result<String, AllocError> {
    match way {
        Ok(way) => {
            let tries = rotations(heap, &way)?;
            let tries = Numbers(&tries);
            format!(in heap; "level 1 tries{tries}")
        }
        Err(fault) => fault.to_string(heap),
    }
}

/// Proposes stride ways for n names, from about half of n on, until one keeps the rule.
pub(crate) fn propose(n: u16, out: &mut String) -> Result<Option<StrideWay>, AllocError>
    ensures { OnOk result (AddsLines (string_bytes out.old) (string_bytes out.new)) }
{
    let start = u16::from(n > 1);
    let first = (n / 2).saturating_sub(1).max(1);
    for stride in first..=n {
        let way = StrideWay::new(n, start, stride);
        let judged = judged(*out.allocator(), way)?;
        add_line(
            out,
            format_args!("way of size {n}, start {start}, stride {stride}: {judged}"),
        )?;
        if let Ok(way) = way {
            return Ok(Some(way));
        }
    }
    Ok(None)
}
