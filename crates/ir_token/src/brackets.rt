//! How deep brackets are nested.
ghost use Rattle.std.specs.Prelude.{◌≡◌, ◌+◌, ◌^◌, ◌<◌};
ghost use Rattle.ir_token.specs.Nesting as spec;

use crate::bytes::byte;
use crate::token::{Kind, Token, Tokens};

/// The byte of a Punct, and 0 for every other token.
fn mark(token: Token, text: &[u8]) -> u8
    ensures { result ≡ spec.mark_at text.now token.kind token.span.from }
{
    match token.kind {
        Kind::Punct => byte(text, token.span.from as usize),
        _ => 0,
    }
}

/// How many brackets are open behind a mark.
pub fn then_open(depth: u64, mark: u8) -> u64
    requires { depth + 1 < 2 ^ 64 }
    ensures { result ≡ spec.then_open depth mark }
{
    match mark {
        b'(' | b'[' | b'{' | b'<' => depth + 1,
        b')' | b']' | b'}' | b'>' => depth.saturating_sub(1),
        _ => depth,
    }
}

/// The greatest number of brackets `( [ { <` that are open at once: each opens one, and each of
/// `) ] } >`, of whatever kind, closes one where one is open.
pub fn nesting(toks: &Tokens, text: &[u8]) -> u64
    ensures { result ≡ spec.nesting_of text.now toks.now }
{
    let mut open = 0;
    let mut most = 0;
    for token in toks.as_slice() {
        open = then_open(open, mark(*token, text));
        if most < open {
            most = open;
        }
    }
    most
}
