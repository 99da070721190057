//! What is answered for a production and a text.
ghost use Rattle.std.specs.Prelude.{◌≤◌, ◌<◌, ◌^◌, length, IfOk};
ghost use Rattle.ir_token.specs.declared.TheConstants.{MAX_BYTES, MAX_TOKENS};
ghost use Rattle.ir_token.specs.Lists.{AreTokens};

use crate::line::Line;
use crate::parts::{End, part};
use attr_ids::{NoMemory, Span};
use ir_parse_body::{SyntaxRefusal, offset, parse_body, terminals};
use ir_parse_top::parse_module;
use ir_token::{LexRefusal, MAX_BYTES, Tokens, nesting, tokens};
use ir_tree::Terminal;
use std::alloc::Global;

/// The deepest nesting of brackets that the parsers of bodies and modules are given.
const DEEPEST: u64 = 256;

/// Where a tree ends, or why there is none.
#[derive(Clone, Copy)]
pub enum Outcome {
    /// The tree ends before this token, which begins at this byte.
    Ends { token: u32, byte: u32 },
    /// The text is a module of so many entities.
    Entities(usize),
    /// The text is refused at this byte.
    Refused(u32),
    /// There is no tree, for another reason.
    Not(&'static str),
    /// Memory was refused.
    Lost,
}

impl Outcome {
    /// Puts the outcome into the line.
    pub fn put_whole(self, line: &mut Line) {
        match self {
            Outcome::Ends { token, byte } => {
                line.token("token ", token);
                line.token(", byte ", byte);
            }
            Outcome::Entities(count) => line.count(count, " entities"),
            Outcome::Refused(byte) => line.token("refused at byte ", byte),
            Outcome::Not(why) => line.put(why),
            Outcome::Lost => line.lose(),
        }
    }

    /// Puts the outcome as a word: a token, a number of entities, or `-` where there is no tree.
    pub fn put_short(self, line: &mut Line) {
        match self {
            Outcome::Ends { token, .. } => line.token("", token),
            Outcome::Entities(count) => line.count(count, ""),
            Outcome::Lost => line.lose(),
            _ => line.put("-"),
        }
    }
}

/// The tokens of the text, where it has a list of them.
pub fn read_tokens(alloc: Global, text: &[u8]) -> Result<Tokens, Outcome>
    ensures small { IfOk result (λ _. length text.now ≤ MAX_BYTES) }
    ensures tokens { IfOk result (λ toks. AreTokens text.now toks) }
    ensures few { IfOk result (λ toks. length toks ≤ MAX_TOKENS) }
{
    if text.len() > MAX_BYTES {
        return Err(Outcome::Not("no tokens"));
    }
    match tokens(alloc, text) {
        Ok(toks) => Ok(toks),
        Err(LexRefusal::NoMemory) => Err(Outcome::Lost),
        Err(_) => Err(Outcome::Not("no tokens")),
    }
}

/// Puts what each of the terminals is.
fn put_terminals(alloc: Global, line: &mut Line, terminals: &[Terminal]) {
    for terminal in terminals {
        line.blank();
        match format!(in alloc; "{terminal:?}") {
            Ok(word) => line.put(word.as_str()),
            Err(_) => line.lose(),
        }
    }
}

/// Puts what each token of the text is to the grammar.
pub fn put_words(alloc: Global, line: &mut Line, text: &[u8]) {
    match read_tokens(alloc, text) {
        Ok(toks) => match terminals(alloc, &toks, text) {
            Ok(terminals) => put_terminals(alloc, line, terminals.as_slice()),
            Err(NoMemory) => line.lose(),
        },
        Err(outcome) => outcome.put_whole(line),
    }
}

/// What is answered for the module.
fn module(alloc: Global, toks: &Tokens, text: &[u8]) -> Outcome
    requires small { length text.now ≤ MAX_BYTES }
    requires tokens { AreTokens text.now toks.now }
{
    if nesting(toks, text) > DEEPEST {
        return Outcome::Not("too deep");
    }
    match parse_module(alloc, toks, text) {
        Ok(tree) => Outcome::Entities(tree.entities.len()),
        Err(SyntaxRefusal::Syntax { at }) => Outcome::Refused(at),
        Err(SyntaxRefusal::NoMemory) => Outcome::Lost,
    }
}

/// What is answered for the body from this token on.
fn body(alloc: Global, toks: &Tokens, text: &[u8], at: u32) -> Outcome
    requires small { length text.now ≤ MAX_BYTES }
    requires tokens { AreTokens text.now toks.now }
{
    if nesting(toks, text) > DEEPEST || at as usize > toks.len() {
        return Outcome::Not("too deep");
    }
    match parse_body(alloc, toks, text, at) {
        Ok((_, token)) => Outcome::Ends {
            token,
            byte: offset(toks, text, token),
        },
        Err(SyntaxRefusal::Syntax { at }) => Outcome::Refused(at),
        Err(SyntaxRefusal::NoMemory) => Outcome::Lost,
    }
}

/// What is answered for a part of a module that ends so.
fn ended(toks: &Tokens, text: &[u8], end: End) -> Outcome
    requires small { length text.now ≤ MAX_BYTES }
    requires tokens { AreTokens text.now toks.now }
{
    match end {
        End::Before(token) => Outcome::Ends {
            token,
            byte: offset(toks, text, token),
        },
        End::Nowhere => Outcome::Not("none"),
        End::NoProduction => Outcome::Not("no production"),
        End::Lost => Outcome::Lost,
    }
}

/// What is answered for the production from this token on.
fn read_of(alloc: Global, production: &str, at: u32, toks: &Tokens, text: &[u8]) -> Outcome
    requires small { length text.now ≤ MAX_BYTES }
    requires tokens { AreTokens text.now toks.now }
    requires few { length toks.now ≤ MAX_TOKENS }
{
    match production {
        "module" => module(alloc, toks, text),
        "body" => body(alloc, toks, text, at),
        _ => match terminals(alloc, toks, text) {
            Ok(all) => ended(toks, text, part(alloc, production, all.as_slice(), at)),
            Err(NoMemory) => Outcome::Lost,
        },
    }
}

/// The same of the text alone.
pub fn read(alloc: Global, production: &str, at: u32, text: &[u8]) -> Outcome {
    match read_tokens(alloc, text) {
        Ok(toks) => read_of(alloc, production, at, &toks, text),
        Err(outcome) => outcome,
    }
}

/// Puts blanks in these places of the text.
fn blank_out(text: &mut [u8], blanks: Span) {
    for at in blanks.from as usize..blanks.to as usize {
        if let Some(byte) = text.get_mut(at) {
            *byte = b' ';
        }
    }
}

/// Puts where the tree ends once blanks stand in these places of the text.
fn put_without(
    alloc: Global,
    line: &mut Line,
    production: &str,
    at: u32,
    text: &[u8],
    blanks: Span,
) {
    match Vec::from_slice(alloc, text) {
        Ok(mut left) => {
            blank_out(left.as_mut_slice(), blanks);
            line.blank();
            read(alloc, production, at, left.as_slice()).put_short(line);
        }
        Err(_) => line.lose(),
    }
}

/// Puts where the tree ends without each of the tokens.
pub fn put_without_each(alloc: Global, line: &mut Line, production: &str, at: u32, text: &[u8]) {
    if let Ok(toks) = read_tokens(alloc, text) {
        for token in toks.as_slice() {
            put_without(alloc, line, production, at, text, token.span);
        }
    }
}
