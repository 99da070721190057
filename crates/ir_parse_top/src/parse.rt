//! The module from the tokens of a text.
ghost use Rattle.std.specs.Prelude.{◌≡◌, ◌<◌, ◌≤◌, ◌^◌, length, None, Some, IfOk, IfErr};
ghost use Rattle.ir_token.specs.declared.TheConstants.{MAX_BYTES};
ghost use Rattle.ir_token.specs.Lists.{AreTokens};
ghost use Rattle.ir_token.specs.Nesting.{nesting_of};
ghost use Rattle.ir_tree.specs.Steps.{Longest, Taken};
ghost use Rattle.ir_tree.specs.Entities as production;
ghost use Rattle.ir_tree.specs.Fits.{Fits};
ghost use Rattle.ir_parse_top.specs.Refusals as spec;

use crate::entities::entity;
use attr_ids::NoMemory;
use ir_parse_body::{SyntaxRefusal, offset, terminals};
use ir_token::Tokens;
use ir_tree::{Entity, Terminal, Tree};
use sqlite_items::Items;
use std::alloc::Global;

/// Entities one behind the other, each the longest that fits, and the place from which none fits.
fn entities(alloc: Global, toks: &[Terminal]) -> Result<(Items<Entity>, u32), NoMemory>
    requires few { length toks.now < 2 ^ 32 }
    ensures taken { IfOk result (λ r. Taken (production.entity toks.now) r.0 0 r.1) }
    ensures none { IfOk result (λ r. Longest (production.entity toks.now) r.1 None) }
    ensures within { IfOk result (λ r. r.1 ≤ length toks.now) }
{
    let mut found = Items::new(alloc);
    let mut place = 0;
    while let Some((entity, next)) = entity(alloc, toks, place)? {
        found.push(entity)?;
        place = next;
    }
    Ok((found, place))
}

/// The tree of the module. It is refused at the first token from which no entity fits.
pub fn parse_module(alloc: Global, toks: &Tokens, text: &[u8]) -> Result<Tree, SyntaxRefusal>
    requires small { length text.now ≤ MAX_BYTES }
    requires tokens { AreTokens text.now toks.now }
    requires shallow { nesting_of text.now toks.now ≤ 256 }
    ensures fits { IfOk result (λ tree. Fits text.now tree toks.now) }
    ensures syntax { IfErr result (λ refusal. spec.IsRefusalOf text.now toks.now refusal) }
{
    let terminals = terminals(alloc, toks, text)?;
    let (entities, stop) = entities(alloc, terminals.as_slice())?;
    if (stop as usize) < toks.len() {
        return Err(SyntaxRefusal::Syntax {
            at: offset(toks, text, stop),
        });
    }
    Ok(Tree { entities })
}
