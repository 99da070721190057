//! Numbers and bytes of names.
ghost use Rattle.std.specs.Prelude.{◌≡◌, ◌<◌, length, All};
ghost use Rattle.ir_token.specs.Names.{has_name};
ghost use Rattle.ir_names.specs.Ids.{IsTokenOf};

use crate::line::Line;
use crate::read::tokens_of;
use attr_ids::NoMemory;
use ir_names::{name_ids, name_text};
use ir_token::{Kind, Token};
use std::alloc::Global;

fn has_name(kind: Kind) -> bool
    ensures { result ≡ has_name kind }
{
    matches!(
        kind,
        Kind::Global | Kind::Local | Kind::Comdat | Kind::Group | Kind::Label
    )
}

/// The number of the name of each token.
pub fn ids_of(alloc: Global, text: &[u8], line: &mut Line) -> Result<(), NoMemory> {
    let Some(toks) = tokens_of(alloc, text)? else {
        line.word("no tokens");
        return Ok(());
    };
    let ids = name_ids(alloc, text, toks.as_slice())?;
    for id in ids.as_slice() {
        line.part(" ");
        line.number(*id);
    }
    Ok(())
}

/// Adds the bytes of the name of a token, if it has one.
fn add_name(
    alloc: Global,
    text: &[u8],
    toks: &[Token],
    at: usize,
    line: &mut Line,
) -> Result<(), NoMemory>
    requires there { at < length toks.now }
    requires tokens { All (IsTokenOf text.now) toks.now }
{
    let token = toks[at];
    if has_name(token.kind) {
        let name = name_text(alloc, text, token)?;
        line.part(" ");
        line.bytes(name.as_slice());
    }
    Ok(())
}

/// The bytes of the name of each token that has one.
pub fn texts_of(alloc: Global, text: &[u8], line: &mut Line) -> Result<(), NoMemory> {
    let Some(toks) = tokens_of(alloc, text)? else {
        line.word("no tokens");
        return Ok(());
    };
    for at in 0..toks.len() {
        add_name(alloc, text, toks.as_slice(), at, line)?;
    }
    Ok(())
}
