//! A number for each name.
ghost use Rattle.std.specs.Prelude.{◌≡◌, ◌≤◌, ◌+◌, ◌<◌, List, ℕ, Option, length, take, slice_get, Some, All, IfOk};
ghost use Rattle.ir_token.specs.declared.TheConstants.{MAX_TOKENS};
ghost use Rattle.ir_token.specs.declared.token.Token.{Token};
ghost use Rattle.ir_token.specs.Lists.{AreTokens};
ghost use Rattle.ir_token.specs.Names.{Name};
ghost use Rattle.ir_names.specs.Ids as spec;
ghost use Rattle.ir_names.specs.Ids.{IsTokenOf, name, names, id_of};
ghost use Rattle.ir_names.specs.Places.{Knows, IsPlaced};

use crate::read::{all_digits, bytes, has_name, number, written};
use attr_ids::{NoMemory, Sequence};
use indexmap::IndexMap;
use ir_token::Token;
use std::alloc::Global;

/// The number of the name of each token, and 0 where a token has none.
pub type NameIds = Sequence<u32>;

/// The place at which each name that is bytes is written first.
type Places = IndexMap<Vec<u8>, u32>;

/// The place at which bytes that are written here are written first.
fn place_of(places: &mut Places, bytes: Vec<u8>, at: u32) -> Result<u32, NoMemory>
    ensures { IfOk result (λ place. (before : List (Option Name)) → Knows places.old before → length before ≡ at →
        IsPlaced before bytes.items place places.new) }
{
    if let Some(place) = places.get(&bytes) {
        return Ok(*place);
    }
    places.insert(bytes, at)?;
    Ok(at)
}

/// The number of the name of the token at a place, where the names before it are known.
fn id_at(
    alloc: Global,
    places: &mut Places,
    text: &[u8],
    toks: &[Token],
    at: usize,
) -> Result<u32, NoMemory>
    requires there { at < length toks.now }
    requires few { length toks.now ≤ MAX_TOKENS }
    requires tokens { All (IsTokenOf text.now) toks.now }
    requires known { Knows places.old (names text.now (take at toks.now)) }
    ensures id { IfOk result (λ id. (t : Token) → slice_get toks.now at ≡ Some t → id ≡ id_of (names text.now toks.now) (name text.now t)) }
    ensures known { IfOk result (λ _. Knows places.new (names text.now (take (at + 1) toks.now))) }
{
    let token = toks[at];
    if !has_name(token.kind) {
        return Ok(0);
    }
    let name = written(text, token);
    if all_digits(name) {
        return Ok(number(name) * 2);
    }
    let read = bytes(alloc, name)?;
    let place = place_of(places, read, at as u32)?;
    Ok(place * 2 + 1)
}

/// The numbers of the names of a text, one for each of its tokens. It takes one pass, and each name is read once.
pub fn name_ids(alloc: Global, text: &[u8], toks: &[Token]) -> Result<NameIds, NoMemory>
    requires tokens { AreTokens text.now toks.now }
    requires few { length toks.now ≤ MAX_TOKENS }
    ensures { IfOk result (λ ids. ids ≡ spec.name_ids text.now toks.now) }
{
    let mut places = IndexMap::new(alloc);
    let mut ids = Vec::new(alloc);
    for at in 0..toks.len() {
        ids.push(id_at(alloc, &mut places, text, toks, at)?)?;
    }
    Ok(Sequence::from_vec(ids))
}
