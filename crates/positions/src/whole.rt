//! All positions of a module, with the tables by which they are found.
ghost use Rattle.std.specs.Prelude.{◌≡◌, ◌^◌, ◌<◌, ◌≤◌, ℕ, length, IfOk};
ghost use Rattle.ir_module.specs.WellFormed.{HasFew};
ghost use Rattle.facts.specs.Bodies.{body_count, param_count};
ghost use Rattle.positions.specs.Order.{positions_of};
ghost use Rattle.positions.specs.Numbering.{AreFound};

use crate::listing::{
    list_bodies, list_effects, list_entries, list_returns, list_rows, list_segments, list_values,
};
use crate::positions::WORD_LIMIT;
use crate::tables::Tables;
use attr_ids::NoMemory;
use facts::Pos;
use ir_module::Module;
use lattice_words::reach::BODIES;
use std::alloc::Global;

/// The positions in their order, and their tables.
#[derive(Drop)]
pub(crate) struct Listing {
    pub(crate) list: Vec<Pos>,
    pub(crate) tables: Tables,
}

/// All positions of a module with so many bodies, and with room for so many words.
pub(crate) fn listed(
    alloc: Global,
    m: &Module,
    bodies: u32,
    words: usize,
) -> Result<Listing, NoMemory>
    requires few { HasFew m.now }
    requires few_params { (f : ℕ) → param_count m.now f < 256 }
    requires bodies { bodies ≡ body_count m.now }
    requires few_bodies { bodies < 2 ^ 31 }
    requires room { length (positions_of m.now) ≤ WORD_LIMIT }
    ensures list { IfOk result (λ listing. listing.list.items ≡ positions_of m.now) }
    ensures found { IfOk result (λ listing. AreFound listing.tables listing.list.items) }
{
    let segs = m.segs.len() as u32;
    let row_words = (bodies + (BODIES - 1)) / BODIES;
    let mut list = Vec::with_capacity(alloc, words)?;
    list_segments(&mut list, segs)?;
    let functions = list_bodies(alloc, m, &mut list)?;
    let values = list_values(alloc, m, &mut list)?;
    let entries = list_entries(alloc, m, &mut list)?;
    let first_return = list.len() as u32;
    list_returns(m, &mut list)?;
    let first_row = list.len() as u32;
    list_rows(&mut list, bodies + 1, row_words)?;
    let first_effect = list.len() as u32;
    list_effects(&mut list, segs)?;
    let tables = Tables {
        functions,
        values,
        entries,
        to_returns: first_return - segs,
        first_row,
        row_words,
        first_effect,
    };
    Ok(Listing { list, tables })
}
