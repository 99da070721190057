//! The question `verify`: whether the module is verified, or what is wrong with it.
use crate::line::Line;
use ir_module::{Module, is_well_formed};
use ir_paths::BlockList;
use ir_verify::{Fault, verify};
use std::alloc::Global;

/// A rule by its number, the offset, and the blocks of a path.
fn put_rule(line: &mut Line, rule: u8, at: u32, path: &BlockList) {
    line.word("rule");
    line.number(u64::from(rule));
    line.word("at");
    line.number(u64::from(at));
    for block in path.as_slice() {
        line.number(u64::from(block.0));
    }
}

fn put(line: &mut Line, fault: &Fault) {
    match fault {
        Fault::Rule { rule, at, path } => put_rule(line, *rule, *at, path),
        Fault::Deep { count } => {
            line.word("deep");
            line.number(*count);
        }
        Fault::Huge { count } => {
            line.word("huge");
            line.number(*count);
        }
        Fault::NoMemory => line.word("no memory"),
    }
}

/// Answers a question for the whole module; answers whether it is one.
pub(crate) fn ask(alloc: Global, m: &Module, question: &str, line: &mut Line) -> bool {
    if question != "verify" {
        return false;
    }
    if !is_well_formed(m) {
        line.word("not well formed");
        return true;
    }
    match verify(alloc, m) {
        Ok(()) => line.word("verified"),
        Err(fault) => put(line, &fault),
    }
    true
}
