//! The lines that say why a text is refused.
ghost use Rattle.std.specs.Prelude.{◌≡◌, ◌++◌, ◌≤◌, length, if◌then◌else◌, [], ◌==◌, IfOk, OnOk};
ghost use Rattle.ir_token.specs.declared.TheConstants.{MAX_BYTES};
ghost use Rattle.accept.specs.Accepted.{IsModuleOf};
ghost use Rattle.accept.specs.Causes.{IsBroken, IsCause};
ghost use Rattle.attrib.specs.Lines as spec;

use crate::places::{cut, put_place};
use accept::{Limit, NESTING_LIMIT, Refusal};
use attr_ids::{BlockId, NoMemory, Span, Text};
use ir_module::Module;
use ir_parse_top::parse_module;
use ir_paths::BlockList;
use ir_resolve::{NameRefusal, resolve};
use ir_token::{LexRefusal, nesting, tokens};
use ir_verify::Fault;
use itoa::Buffer;
use std::alloc::Global;

/// The line of a cause that stands at an offset.
fn place_line(alloc: Global, text: &[u8], cause: &[u8], at: u32) -> Result<Text, NoMemory>
    ensures { IfOk result (λ line. line ≡ spec.place_line text.now cause.now at) }
{
    let mut line = Vec::new(alloc);
    line.extend_from_slice(b"attrib: ")?;
    line.extend_from_slice(cause)?;
    put_place(&mut line, text, at)?;
    line.extend_from_slice(b"\n")?;
    Ok(Text::from_vec(line))
}

/// The line of a cause that is of a token.
fn token_line(alloc: Global, text: &[u8], cause: &[u8], word: Span) -> Result<Text, NoMemory>
    ensures { IfOk result (λ line. line ≡ spec.token_line text.now cause.now word) }
{
    let mut told = Vec::new(alloc);
    told.extend_from_slice(cause)?;
    told.extend_from_slice(b": ")?;
    told.extend_from_slice(cut(text, word))?;
    place_line(alloc, text, told.as_slice(), word.from)
}

fn lex_line(alloc: Global, text: &[u8], why: LexRefusal) -> Result<Text, NoMemory>
    ensures { IfOk result (spec.IsLexLine text.now why) }
{
    match why {
        LexRefusal::BadByte { at } => place_line(alloc, text, b"bad byte", at),
        LexRefusal::OpenString { at } => place_line(alloc, text, b"open string", at),
        LexRefusal::LeftOut { word } => token_line(alloc, text, b"left out", word),
        LexRefusal::TooMany { .. } | LexRefusal::NoMemory => Err(NoMemory),
    }
}

fn name_line(alloc: Global, text: &[u8], why: NameRefusal) -> Result<Text, NoMemory>
    ensures { IfOk result (spec.IsNameLine text.now why) }
{
    match why {
        NameRefusal::Unknown { name } => token_line(alloc, text, b"unknown name", name),
        NameRefusal::Twice { name } => token_line(alloc, text, b"name twice", name),
        NameRefusal::Layout { at } => place_line(alloc, text, b"layout", at),
        NameRefusal::NoMemory => Err(NoMemory),
    }
}

/// Puts the name of a block behind the words of a line.
fn put_block(line: &mut Vec<u8>, m: &Module, k: BlockId) -> Result<(), NoMemory>
    ensures { OnOk result (line.new.items ≡ line.old.items ++ spec.block_words m.now k) }
{
    line.extend_from_slice(b" %")?;
    match m.blocks.get(k.0 as usize) {
        Some(block) => line.extend_from_slice(block.name.as_slice())?,
        None => {}
    }
    Ok(())
}

/// Puts a path behind the words of a line.
fn put_path(line: &mut Vec<u8>, m: &Module, path: &BlockList) -> Result<(), NoMemory>
    ensures { OnOk result (line.new.items ≡ line.old.items ++ spec.path_words m.now path.now) }
{
    line.extend_from_slice(b", path")?;
    for k in path.as_slice() {
        put_block(line, m, *k)?;
    }
    Ok(())
}

/// Puts the path of V18 behind the words of a line; other rules have none.
fn put_path_if(line: &mut Vec<u8>, m: &Module, rule: u8, path: &BlockList) -> Result<(), NoMemory>
    ensures { OnOk result (line.new.items ≡ line.old.items ++ (if rule == 18 then spec.path_words m.now path.now else [])) }
{
    if rule == 18 {
        put_path(line, m, path)?;
    }
    Ok(())
}

fn rule_line(
    alloc: Global,
    text: &[u8],
    m: &Module,
    rule: u8,
    at: u32,
    path: &BlockList,
) -> Result<Text, NoMemory>
    ensures { IfOk result (λ line. line ≡ spec.rule_line text.now m.now rule at path.now) }
{
    let mut buffer = Buffer::new();
    let mut line = Vec::new(alloc);
    line.extend_from_slice(b"attrib: rule V")?;
    line.extend_from_slice(buffer.format(rule).as_bytes())?;
    put_place(&mut line, text, at)?;
    put_path_if(&mut line, m, rule, path)?;
    line.extend_from_slice(b"\n")?;
    Ok(Text::from_vec(line))
}

/// The module of a text, read once more for the names of its blocks.
fn module_of(alloc: Global, text: &[u8]) -> Result<Module, NoMemory>
    requires { length text.now ≤ MAX_BYTES }
    ensures { IfOk result (IsModuleOf text.now) }
{
    let Ok(toks) = tokens(alloc, text) else {
        return Err(NoMemory);
    };
    if nesting(&toks, text) > NESTING_LIMIT {
        return Err(NoMemory);
    }
    let Ok(tree) = parse_module(alloc, &toks, text) else {
        return Err(NoMemory);
    };
    match resolve(alloc, &tree, toks.as_slice(), text) {
        Ok(module) => Ok(module),
        Err(_) => Err(NoMemory),
    }
}

fn verify_line(alloc: Global, text: &[u8], fault: &Fault) -> Result<Text, NoMemory>
    requires { IsBroken text.now fault.now }
    ensures { IfOk result (spec.IsVerifyLine text.now fault.now) }
{
    match fault {
        Fault::Rule { rule, at, path } => {
            let module = module_of(alloc, text)?;
            rule_line(alloc, text, &module, *rule, *at, path)
        }
        Fault::Deep { .. } | Fault::Huge { .. } | Fault::NoMemory => Err(NoMemory),
    }
}

fn limit_name(which: Limit) -> &'static [u8]
    ensures { result.now ≡ spec.limit_name which }
{
    match which {
        Limit::Bytes => b"Bytes",
        Limit::Tokens => b"Tokens",
        Limit::Nesting => b"Nesting",
        Limit::TypeNesting => b"TypeNesting",
        Limit::TypeBytes => b"TypeBytes",
        Limit::Functions => b"Functions",
        Limit::Parameters => b"Parameters",
        Limit::Instructions => b"Instructions",
        Limit::Words => b"Words",
        Limit::Edges => b"Edges",
    }
}

fn limit_line(alloc: Global, which: Limit, count: u64) -> Result<Text, NoMemory>
    ensures { IfOk result (λ line. line ≡ spec.limit_line which count) }
{
    let mut buffer = Buffer::new();
    let mut line = Vec::new(alloc);
    line.extend_from_slice(b"attrib: too large: ")?;
    line.extend_from_slice(limit_name(which))?;
    line.extend_from_slice(b" ")?;
    line.extend_from_slice(buffer.format(count).as_bytes())?;
    line.extend_from_slice(b"\n")?;
    Ok(Text::from_vec(line))
}

/// The line of a refusal of a text; there is none for a want of memory, which is answered as what it is.
pub(crate) fn refusal_line(alloc: Global, text: &[u8], refusal: &Refusal) -> Result<Text, NoMemory>
    requires { IsCause text.now refusal.now }
    ensures { IfOk result (spec.IsLine text.now refusal.now) }
{
    match refusal {
        Refusal::Lex(why) => lex_line(alloc, text, *why),
        Refusal::Syntax { at } => place_line(alloc, text, b"syntax", *at),
        Refusal::Name(why) => name_line(alloc, text, *why),
        Refusal::Verify(fault) => verify_line(alloc, text, fault),
        Refusal::TooLarge { which, count } => limit_line(alloc, *which, *count),
        Refusal::NoMemory => Err(NoMemory),
    }
}
