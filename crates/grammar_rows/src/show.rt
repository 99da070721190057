//! Parts of the trees of productions, as words.
ghost use Rattle.std.specs.Prelude.{◌≤◌, ◌<◌, ◌^◌, length};
ghost use Rattle.ir_token.specs.declared.TheConstants.{MAX_BYTES, MAX_TOKENS};
ghost use Rattle.ir_token.specs.Lists.{AreTokens};

use crate::line::Line;
use crate::outcome::read_tokens;
use crate::show_module::{put_body, put_module};
use attr_ids::NoMemory;
use ir_parse_body::{body, terminals};
use ir_parse_parts::{constant, fattr, ftype, rattrs};
use ir_token::Tokens;
use ir_tree::{Body, Const, Fattr, Ftype, Rattr, Terminal};
use std::alloc::Global;

/// A tree of which a part is put into a line.
trait Shown {
    fn put(&self, line: &mut Line);
}

/// The first token of a getelementptr, and how many flags and how many operands it has.
impl Shown for Const {
    fn put(&self, line: &mut Line) {
        let Const::GetElementPtr {
            op,
            flags,
            operands,
            ..
        } = self
        else {
            return line.put("another constant");
        };
        line.token("getelementptr ", *op);
        line.put(", ");
        line.count(flags.len(), " flags, ");
        line.count(operands.len(), " operands")
    }
}

/// How many tokens and parentheses stand directly in the parentheses of an attribute, and where it closes.
impl Shown for Fattr {
    fn put(&self, line: &mut Line) {
        let Fattr::Bracket { inside, close, .. } = self else {
            return line.put("no parentheses");
        };
        line.count(inside.len(), " inside");
        line.token(", close ", *close)
    }
}

/// The number of bytes of an alignment between parentheses, and where it closes.
impl Shown for Rattr {
    fn put(&self, line: &mut Line) {
        match self {
            Rattr::AlignIn { bytes, close, .. } => {
                line.token("align of ", *bytes);
                line.token(", close ", *close)
            }
            Rattr::Align { bytes, .. } => line.token("align of ", *bytes),
            Rattr::Fattr(_) => line.put("fattr"),
        }
    }
}

/// How many types are listed, and where dots stand behind them.
impl Shown for Ftype {
    fn put(&self, line: &mut Line) {
        let Ftype::Listed { types, dots } = self else {
            return line.put("no types");
        };
        line.count(types.len(), " types, ");
        match dots {
            Some(dots) => line.token("dots ", *dots),
            None => line.put("no dots"),
        }
    }
}

impl Shown for Body {
    fn put(&self, line: &mut Line) {
        put_body(line, self)
    }
}

/// Puts a part of a tree, if there is one.
fn put_found<T: Shown + Drop>(line: &mut Line, answer: Result<Option<(T, u32)>, NoMemory>) {
    match answer {
        Ok(Some((found, _))) => found.put(line),
        Ok(None) => line.put("none"),
        Err(NoMemory) => line.lose(),
    }
}

/// Puts the last of the attributes of a parameter.
fn put_last(line: &mut Line, found: &[Rattr]) {
    match found.last() {
        Some(last) => last.put(line),
        None => line.put("no attributes"),
    }
}

/// Puts a part of the tree of a production, which begins at the first token.
fn put_part(alloc: Global, line: &mut Line, production: &str, toks: &[Terminal])
    requires few { length toks.now < 2 ^ 32 }
{
    match production {
        "const" => put_found(line, constant(alloc, toks, 0)),
        "fattr" => put_found(line, fattr(alloc, toks, 0)),
        "ftype" => put_found(line, ftype(alloc, toks, 0)),
        "rattr*" => match rattrs(alloc, toks, 0) {
            Ok((found, _)) => put_last(line, found.as_slice()),
            Err(NoMemory) => line.lose(),
        },
        "body" => put_found(line, body(alloc, toks, 0)),
        _ => line.put("none"),
    }
}

/// Puts a part of the tree of a production that these tokens begin with.
fn put_of(alloc: Global, line: &mut Line, production: &str, toks: &Tokens, text: &[u8])
    requires small { length text.now ≤ MAX_BYTES }
    requires tokens { AreTokens text.now toks.now }
    requires few { length toks.now ≤ MAX_TOKENS }
{
    if production == "module" {
        return put_module(alloc, line, toks, text);
    }
    match terminals(alloc, toks, text) {
        Ok(all) => put_part(alloc, line, production, all.as_slice()),
        Err(NoMemory) => line.lose(),
    }
}

/// The same of the text alone.
pub fn put_shown(alloc: Global, line: &mut Line, production: &str, text: &[u8]) {
    match read_tokens(alloc, text) {
        Ok(toks) => put_of(alloc, line, production, &toks, text),
        Err(outcome) => outcome.put_whole(line),
    }
}
