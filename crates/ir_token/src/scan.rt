//! The whole text, token by token.
ghost use Rattle.std.specs.Prelude.{◌≡◌, ◌<◌, ◌≤◌, length, IfOk, Err, ℕ, List};
ghost use Rattle.ir_token.specs.declared.TheConstants.{MAX_BYTES};
ghost use Rattle.attr_ids.specs.declared.insertion.Span.{Span};
ghost use Rattle.ir_token.specs.Lists as spec;

use crate::MAX_TOKENS;
use crate::found::{Found, found_at};
use crate::left_out::is_left;
use crate::runs::{past_gap, past_label};
use crate::token::{LexRefusal, Token, Tokens};
use attr_ids::{Sequence, Span};
use std::alloc::Global;

/// The tokens of a text. It is refused at the first byte at which no token can be taken, string that
/// has no end, or token that is left out; and else for more than 16,000,000 tokens, counted to its end.
pub fn tokens(alloc: Global, text: &[u8]) -> Result<Tokens, LexRefusal>
    requires { length text.now ≤ MAX_BYTES }
    ensures list { IfOk result (λ toks. spec.AreTokens text.now toks) }
    ensures few { IfOk result (λ toks. length toks ≤ MAX_TOKENS) }
    ensures bad_byte { (at : ℕ) → result ≡ Err (LexRefusal.BadByte at) → spec.Reads text.now (spec.BadAt at) }
    ensures open_string { (at : ℕ) → result ≡ Err (LexRefusal.OpenString at) → spec.Reads text.now (spec.OpenAt at) }
    ensures left_out { (word : Span) → result ≡ Err (LexRefusal.LeftOut word)
        → spec.Reads text.now (spec.LeftAt word.from word.to) }
    ensures too_many { (count : ℕ) → result ≡ Err (LexRefusal.TooMany count)
        → (ts : List Token) × (spec.AreTokens text.now ts × (length ts ≡ count) × (MAX_TOKENS < count)) }

    // Whatever the text is read as, the answer tells it, or that no memory was left.
    ensures only { (x : spec.Reading) → spec.Reads text.now x → spec.Tells result x }
{
    let mut items = Vec::new(alloc);
    let mut count = 0;
    let mut at = past_gap(text, 0);
    let mut run = at;
    // One pass: a byte of a closed part is looked at once, a name once more when its token is known, and of blanks those
    // behind a Meta or a Comdat alone are looked at twice.
    while at < text.len() {
        if run <= at {
            run = past_label(text, at);
        }
        let (kind, end) = match found_at(text, at, run) {
            Found::Token(kind, end) => (kind, end),
            Found::Bad => return Err(LexRefusal::BadByte { at: at as u32 }),
            Found::Open => return Err(LexRefusal::OpenString { at: at as u32 }),
        };
        let span = Span {
            from: at as u32,
            to: end as u32,
        };
        if is_left(text, at, kind, end) {
            return Err(LexRefusal::LeftOut { word: span });
        }
        if count < MAX_TOKENS {
            items.push(Token { kind, span })?;
        }
        count += 1;
        at = past_gap(text, end);
    }
    if count > MAX_TOKENS {
        return Err(LexRefusal::TooMany {
            count: count as u64,
        });
    }
    Ok(Sequence::from_vec(items))
}
