ghost use Rattle.std.specs.Prelude.{length, IfOk, MatchOption, OnOk, string_bytes};
ghost use Rattle.listing.specs.Clashes.{AreApart, IsFirstClash};
ghost use Rattle.typing.specs.Lines.{AddsLines};

use graph::rows::Row;
use hashing::seed::Seed;
use hashing::sizes::Sizes;
use hashing::tables::{TABLE_NUMBERS, fill};
use hashing::triples::triple_of;
use std::alloc::{AllocError, Global};
use std::collections::BTreeMap;
use typing::text::add_line;
use typing::typed::Typed;

/// The names of a list with their settings, and the triple of each.
#[derive(Drop)]
pub struct Hashed<N> {
    pub names: Vec<Row<N>>,
    pub triples: Vec<(u16, u16, u16)>,
    pub sizes: Sizes,
    pub seed: Seed,
}

// The tables of a seed.
fn tables(heap: Global, seed: Seed) -> Result<Vec<u32>, AllocError> {
    let mut tables = vec![in heap; 0; TABLE_NUMBERS]?;
    fill(&mut tables, seed).unwrap();
    Ok(tables)
}

impl<N: Typed> Hashed<N> {
    /// Gives each name its triple, with a line of the report.
    pub(crate) fn new(
        names: Vec<Row<N>>,
        sizes: Sizes,
        seed: Seed,
        out: &mut String,
    ) -> Result<Hashed<N>, AllocError>
        ensures { OnOk result (AddsLines (string_bytes out.old) (string_bytes out.new)) }
    {
        let heap = *out.allocator();
        let tables = tables(heap, seed)?;
        let mut triples = Vec::new(heap);
        for row in &names {
            if let Some((h0, h1, h2)) = triple_of(&tables, sizes, &row.name) {
                let (name, setting) = (row.name.to_string(heap)?, row.setting);
                add_line(
                    out,
                    format_args!("{name} setting {setting} triple {h0} {h1} {h2}"),
                )?;
                triples.push((h0, h1, h2))?;
            }
        }
        Ok(Hashed {
            names,
            triples,
            sizes,
            seed,
        })
    }
}

impl<N> Hashed<N> {
    /// The numbers, from 1, of the first two names with one triple.
    pub fn clash(&self) -> Result<Option<(usize, usize)>, AllocError>
        ensures { IfOk result (λ clash. MatchOption clash (AreApart (length self.now.triples.items) self.now.triples.items) (λ pair. IsFirstClash self.now.triples.items pair.0 pair.1)) }
    {
        let mut numbers = BTreeMap::new(*self.triples.allocator());
        for (at, triple) in self.triples.iter().enumerate() {
            let number = at + 1;
            if let Some(earlier) = numbers.insert(*triple, number)? {
                return Ok(Some((earlier, number)));
            }
        }
        Ok(None)
    }
}
