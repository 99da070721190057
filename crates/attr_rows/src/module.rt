//! The attributes of each function, call and global of a module.
ghost use Rattle.std.specs.Prelude.{◌≤◌, length};
ghost use Rattle.ir_token.specs.declared.TheConstants.{MAX_BYTES};
ghost use Rattle.ir_token.specs.Lists.{AreTokens};

use crate::line::Line;
use crate::show;
use attr_ids::NoMemory;
use ir_attrs::{
    Groups, align_field, arg_place, call_places, func_attrs, func_places, global_align, groups,
    param_attrs, param_place,
};
use ir_parse_body::SyntaxRefusal;
use ir_parse_top::parse_module;
use ir_token::{Kind, LexRefusal, MAX_BYTES, Token, Tokens, nesting, tokens};
use ir_tree::{Arg, Body, Called, Entity, Header, Instr, Line as Row, Params, Tree, Word};
use std::alloc::Global;

/// A text, its tokens, the numbers of its names and its groups.
#[derive(Clone, Copy)]
struct Read<'a> {
    text: &'a [u8],
    toks: &'a [Token],
    ids: &'a [u32],
}

/// The number of a group's name, and 0 for every other token.
fn id_of(text: &[u8], token: Token) -> u32 {
    let mut id = 0u32;
    if token.kind == Kind::Group {
        for at in token.span.from as usize + 1..token.span.to as usize {
            if at < text.len() {
                id = id.wrapping_mul(10).wrapping_add(text[at] as u32);
            }
        }
    }
    id
}

fn ids_of(alloc: Global, text: &[u8], toks: &[Token]) -> Result<Vec<u32>, NoMemory> {
    let mut ids = Vec::new(alloc);
    for token in toks {
        ids.push(id_of(text, *token))?;
    }
    Ok(ids)
}

fn params(read: Read, params: &Params, line: &mut Line) {
    if let Params::Listed { params, .. } = params {
        for param in params.as_slice() {
            let attrs = param_attrs(read.text, read.toks, param.words.as_slice());
            show::param(line, "param", &attrs);
            line.named("at", param_place(read.toks, param) as u64);
        }
    }
}

/// What a list of attributes says of a function.
fn func(alloc: Global, read: Read, groups: &Groups, words: &[Word], line: &mut Line) {
    match func_attrs(alloc, read.text, read.toks, read.ids, groups, words) {
        Ok(attrs) => show::func(line, &attrs),
        Err(NoMemory) => line.lose(),
    }
}

fn header(alloc: Global, read: Read, groups: &Groups, header: &Header, line: &mut Line) {
    func(alloc, read, groups, header.attributes.as_slice(), line);
    let ret = param_attrs(read.text, read.toks, header.result_words.as_slice());
    show::param(line, "ret", &ret);
    show::places(line, func_places(read.toks, header));
    params(read, &header.params, line)
}

fn args(read: Read, args: &[Arg], line: &mut Line) {
    for arg in args {
        let attrs = param_attrs(read.text, read.toks, arg.words.as_slice());
        show::param(line, "arg", &attrs);
        line.named("at", arg_place(read.toks, arg) as u64);
    }
}

fn called(alloc: Global, read: Read, groups: &Groups, called: &Called, line: &mut Line) {
    line.put(" call");
    func(
        alloc,
        read,
        groups,
        called.arguments.attributes.as_slice(),
        line,
    );
    match call_places(alloc, read.toks, called) {
        Ok(places) => {
            line.named("at", places.ret as u64);
            line.named("and", places.after as u64);
        }
        Err(NoMemory) => line.lose(),
    }
    args(read, called.arguments.args.as_slice(), line)
}

fn instr(alloc: Global, read: Read, groups: &Groups, instr: &Instr, line: &mut Line) {
    match instr {
        Instr::Call(call) => called(alloc, read, groups, &call.get().called, line),
        Instr::Load { align, .. } => {
            line.put(" load align ");
            line.number_or(align_field(read.text, read.toks, *align), "-");
        }
        _ => {}
    }
}

fn body(alloc: Global, read: Read, groups: &Groups, body: &Body, line: &mut Line) {
    for row in body.first.lines.as_slice() {
        if let Row::Instr { instr: found, .. } = row {
            instr(alloc, read, groups, found.get(), line);
        }
    }
}

fn entity(alloc: Global, read: Read, groups: &Groups, entity: &Entity, line: &mut Line) {
    match entity {
        Entity::Declare(declare) => header(alloc, read, groups, &declare.get().header, line),
        Entity::Define(define) => {
            header(alloc, read, groups, &define.get().header, line);
            body(alloc, read, groups, &define.get().body, line);
        }
        Entity::GlobalVar(global) => {
            line.put(" global align ");
            let align = global_align(read.text, read.toks, global.get().tails.as_slice());
            line.number_or(align, "-");
        }
        _ => {}
    }
}

fn grouped(alloc: Global, read: Read, entities: &[Entity], line: &mut Line) {
    match groups(alloc, read.text, read.toks, read.ids, entities) {
        Ok(groups) => {
            for each in entities {
                entity(alloc, read, &groups, each, line);
            }
        }
        Err(NoMemory) => line.lose(),
    }
}

fn tree(alloc: Global, text: &[u8], toks: &[Token], tree: &Tree, line: &mut Line) {
    match ids_of(alloc, text, toks) {
        Ok(ids) => {
            let read = Read {
                text,
                toks,
                ids: ids.as_slice(),
            };
            grouped(alloc, read, tree.entities.as_slice(), line);
        }
        Err(NoMemory) => line.lose(),
    }
}

fn parsed(alloc: Global, text: &[u8], toks: &Tokens, line: &mut Line)
    requires small { length text.now ≤ MAX_BYTES }
    requires tokens { AreTokens text.now toks.now }
{
    if nesting(toks, text) > 256 {
        return line.put(" too deep");
    }
    match parse_module(alloc, toks, text) {
        Ok(found) => tree(alloc, text, toks.as_slice(), &found, line),
        Err(SyntaxRefusal::Syntax { .. }) => line.put(" no module"),
        Err(SyntaxRefusal::NoMemory) => line.lose(),
    }
}

/// Tells the attributes of the functions, calls and globals of a module.
pub fn told(alloc: Global, text: &[u8], line: &mut Line) {
    if text.len() > MAX_BYTES {
        return;
    }
    match tokens(alloc, text) {
        Ok(toks) => parsed(alloc, text, &toks, line),
        Err(LexRefusal::NoMemory) => line.lose(),
        Err(_) => line.put(" no tokens"),
    }
}
