//! The body of a function from the tokens of a text.
ghost use Rattle.std.specs.Prelude.{◌≡◌, ◌<◌, ◌≤◌, ◌^◌, length, Some, IfOk, IfErr};
ghost use Rattle.ir_token.specs.declared.TheConstants.{MAX_BYTES};
ghost use Rattle.ir_token.specs.Lists.{AreTokens};
ghost use Rattle.ir_token.specs.Nesting.{nesting_of};
ghost use Rattle.ir_tree.specs.Steps.{Longest};
ghost use Rattle.ir_tree.specs.Terminals as grammar;
ghost use Rattle.ir_tree.specs.Blocks as production;
ghost use Rattle.ir_parse_body.specs.Refusals as spec;

use crate::blocks::body;
use crate::refusal::SyntaxRefusal;
use attr_ids::NoMemory;
use ir_token::{Tokens, tokens_are_within};
use ir_tree::{Body, Terminal, terminal_of};
use std::alloc::Global;

/// What each token of a text is to the grammar.
pub fn terminals(alloc: Global, toks: &Tokens, text: &[u8]) -> Result<Vec<Terminal>, NoMemory>
    requires { AreTokens text.now toks.now }
    ensures { IfOk result (λ found. found.items ≡ grammar.terminals text.now toks.now) }
{
    tokens_are_within();
    let mut found = Vec::with_capacity(alloc, toks.len())?;
    for token in toks.as_slice() {
        found.push(terminal_of(text, *token))?;
    }
    Ok(found)
}

/// The byte at which the token of this number begins, and behind the last token the end of the text.
pub fn offset(toks: &Tokens, text: &[u8], at: u32) -> u32
    requires tokens { AreTokens text.now toks.now }
    requires small { length text.now ≤ MAX_BYTES }
    ensures { result ≡ spec.offset text.now toks.now at }
{
    match toks.get(at as usize) {
        Some(token) => token.span.from,
        None => text.len() as u32,
    }
}

/// The longest body that fits from this token, and the token behind it. It is refused where none fits.
pub fn parse_body(
    alloc: Global,
    toks: &Tokens,
    text: &[u8],
    at: u32,
) -> Result<(Body, u32), SyntaxRefusal>
    requires small { length text.now ≤ MAX_BYTES }
    requires tokens { AreTokens text.now toks.now }
    requires shallow { nesting_of text.now toks.now ≤ 256 }
    requires within { at ≤ length toks.now }
    ensures fits { IfOk result (λ r. Longest (production.body (grammar.terminals text.now toks.now)) at (Some r)) }
    ensures syntax { IfErr result (λ refusal. spec.IsReason text.now toks.now at refusal) }
{
    let terminals = terminals(alloc, toks, text)?;
    match body(alloc, terminals.as_slice(), at)? {
        Some(found) => Ok(found),
        None => Err(SyntaxRefusal::Syntax {
            at: offset(toks, text, at),
        }),
    }
}
