use crate::uncalled::Uncalled;
use lending::{FULL, LONGEST_STRING};
use mixed_ways::kept::KeptList;
use mixed_ways::mixed::Mixed;
use pressing::lists::Lengths;
use scripts::script::{Call, Lent};
use std::alloc::{AllocError, Global};
use std::str::SplitWhitespace;
use typing::numbers::{Capped, number, or_0, or_most, seed_or_0};
use typing::typed::Typed;
use ways::stride::StrideWay;

/// A way that a line proposes: of a stride, or of a list.
pub type ProposedWay = Mixed<StrideWay, KeptList>;

/// What is lent at first: full lists, and memory for the longest string.
pub const FULLY_LENT: Lent = Lent {
    lists: FULL,
    string: LONGEST_STRING,
};

/// What a line says.
#[derive(Drop)]
pub enum Said<N> {
    Blank,
    Lend(Lent),
    Call(Call<N, ProposedWay>),
}

// A length of what is lent.
fn length(x: u64) -> usize {
    usize::try_from(x).unwrap_or(usize::MAX)
}

// `enter NAME SETTING` or `enter PAN DAY SETTING`
fn read_name<N: Typed>(words: SplitWhitespace<'_>) -> Result<Said<N>, Uncalled> {
    let (name, setting) = N::read::<Capped>(words)?;
    Ok(Said::Call(Call::Enter(name, setting)))
}

// `fit SIZE START STRIDE`
fn read_stride<N: Typed>(size: u64, start: u64, stride: u64) -> Result<Said<N>, Uncalled> {
    let way = StrideWay::new(or_0(size), or_most(start), or_0(stride))?;
    Ok(Said::Call(Call::Fit(Mixed::One(way))))
}

// `fit-list V V ..`
fn read_list<N: Typed>(rotations: Vec<u16>) -> Result<Said<N>, Uncalled> {
    let way = KeptList::new(rotations)?;
    Ok(Said::Call(Call::Fit(Mixed::Other(way))))
}

// `lend ROWS TABLES EDGES VERTICES HEAP ORDERED SLOTS STRING`
fn read_lent<N: Typed>(numbers: &[u64]) -> Result<Said<N>, Uncalled> {
    let [rows, tables, edges, vertices, heap, ordered, slots, string] = numbers else {
        return Err(Uncalled::Unread);
    };
    Ok(Said::Lend(Lent {
        lists: Lengths {
            rows: length(*rows),
            tables: length(*tables),
            edges: length(*edges),
            vertices: length(*vertices),
            heap: length(*heap),
            ordered: length(*ordered),
            slots: length(*slots),
        },
        string: length(*string),
    }))
}

// The numbers that the words write, if each writes one.
fn read_numbers(heap: Global, words: SplitWhitespace<'_>) -> Result<Option<Vec<u64>>, AllocError> {
    let mut numbers = Vec::new(heap);
    for word in words {
        let Some(x) = number(word) else {
            return Ok(None);
        };
        numbers.push(x)?;
    }
    Ok(Some(numbers))
}

// A line with numbers alone.
fn read_numbered<N: Typed>(
    heap: Global,
    verb: &str,
    numbers: &[u64],
) -> Result<Result<Said<N>, Uncalled>, AllocError> {
    Ok(match (verb, numbers) {
        ("lend", _) => read_lent(numbers),
        ("map", [r, seed]) => Ok(Said::Call(Call::Map(or_0(*r), seed_or_0(*seed)))),
        ("order", []) => Ok(Said::Call(Call::Order)),
        ("fit", [size, start, stride]) => read_stride(*size, *start, *stride),
        ("fit-list", _) => read_list(numbers.iter().map(|x| or_most(*x)).collect(heap)?),
        ("reopen", []) => Ok(Said::Call(Call::Reopen)),
        ("seal", []) => Ok(Said::Call(Call::Seal)),
        _ => Err(Uncalled::Unread),
    })
}

/// Reads a line.
pub fn read_line<N: Typed>(
    heap: Global,
    line: &str,
) -> Result<Result<Said<N>, Uncalled>, AllocError> {
    let mut words = line.split_whitespace();
    match words.next() {
        None => Ok(Ok(Said::Blank)),
        Some("enter") => Ok(read_name(words)),
        Some(verb) => match read_numbers(heap, words)? {
            Some(numbers) => read_numbered(heap, verb, &numbers),
            None => Ok(Err(Uncalled::Unread)),
        },
    }
}
