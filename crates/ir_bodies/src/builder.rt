//! Instructions that are put into segments and blocks.
ghost use Rattle.std.specs.Prelude.{◌≡◌, [], IfOk};
ghost use Rattle.ir_bodies.specs.Lines as lines;

use attr_ids::{NoMemory, ValueId};
use ir_consts::Laid;
use ir_module::Block;
use ir_scopes::NameFault;
use ir_segments::Cutter;
use std::alloc::Global;

/// The bodies that were read: their instructions in segments, their blocks, how many values there are with the parameters,
/// and what was gathered.
#[derive(Drop)]
pub struct Builder {
    pub cutter: Cutter,
    pub blocks: Vec<Block>,
    pub values: u32,
    pub notes: Laid,
}

/// One more. No text has so many things that their number does not fit.
fn one_more(count: u32) -> Result<u32, NoMemory>
    ensures { IfOk result (λ more. more ≡ lines.one_more count) }
{
    count.checked_add(1).ok_or(NoMemory)
}

/// The number of the next value, where one is given, and how many values there are then.
pub(crate) fn next_value(gives: bool, values: u32) -> Result<(Option<ValueId>, u32), NoMemory>
    ensures value { IfOk result (λ next. next.0 ≡ lines.value_in gives values) }
    ensures count { IfOk result (λ next. next.1 ≡ lines.raised gives values) }
{
    if !gives {
        return Ok((None, values));
    }
    let more = one_more(values)?;
    Ok((Some(ValueId(values)), more))
}

impl Builder {
    /// No bodies.
    pub fn new(alloc: Global, found: Option<NameFault>) -> Builder
        ensures segs { result.cutter.segs.items ≡ [] }
        ensures run { result.cutter.run.items ≡ [] }
        ensures blocks { result.blocks.items ≡ [] }
        ensures values { result.values ≡ 0 }
        ensures parts { result.notes.parts.items ≡ [] }
        ensures found { result.notes.found ≡ found }
    {
        Builder {
            cutter: Cutter::new(alloc),
            blocks: Vec::new(alloc),
            values: 0,
            notes: Laid {
                parts: Vec::new(alloc),
                found,
            },
        }
    }
}
