//! A text as tokens and a tree.
ghost use Rattle.std.specs.Prelude.{◌≡◌, ◌≤◌, length, IfSome, IfOk};
ghost use Rattle.ir_token.specs.declared.TheConstants.{MAX_TOKENS};
ghost use Rattle.ir_token.specs.Lists.{AreTokens};

use attr_ids::NoMemory;
use ir_names::{NameIds, name_ids};
use ir_parse_top::parse_module;
use ir_token::{LexRefusal, MAX_BYTES, Tokens, nesting, tokens};
use ir_tree::Tree;
use std::alloc::Global;

/// The tokens of a text, where it has a list of them.
pub fn tokens_of(alloc: Global, text: &[u8]) -> Result<Option<Tokens>, NoMemory>
    ensures tokens { IfOk result (λ found. IfSome found (λ toks. AreTokens text.now toks)) }
    ensures few { IfOk result (λ found. IfSome found (λ toks. length toks ≤ MAX_TOKENS)) }
{
    if text.len() > MAX_BYTES {
        return Ok(None);
    }
    match tokens(alloc, text) {
        Ok(toks) => Ok(Some(toks)),
        Err(LexRefusal::NoMemory) => Err(NoMemory),
        Err(_) => Ok(None),
    }
}

/// A module as it was read.
#[derive(Drop)]
pub struct Module {
    pub toks: Tokens,
    pub ids: NameIds,
    pub tree: Tree,
}

/// The module of a text, where it has one.
pub fn module_of(alloc: Global, text: &[u8]) -> Result<Option<Module>, NoMemory> {
    if text.len() > MAX_BYTES {
        return Ok(None);
    }
    let Some(toks) = tokens_of(alloc, text)? else {
        return Ok(None);
    };
    if nesting(&toks, text) > 256 {
        return Ok(None);
    }
    let ids = name_ids(alloc, text, toks.as_slice())?;
    match parse_module(alloc, &toks, text) {
        Ok(tree) => Ok(Some(Module { toks, ids, tree })),
        Err(_) => Ok(None),
    }
}
