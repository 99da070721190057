//! Types: lines that add one, and their sizes, alignments and offsets.
ghost use Rattle.std.specs.Prelude.{◌<◌, length};
ghost use Rattle.ir_types.specs.IrType.{IsWellFormed};

use crate::line::Line;
use crate::words::{id, number, ty, word};
use attr_ids::{NoMemory, TypeId};
use ir_module::Module;
use ir_types::{IrType, TypeList, TypeRefusal, TypeTable};
use std::alloc::Global;
use std::str::SplitWhitespace;

/// A table takes no more types than this.
const LIMIT: usize = 1 << 20;

fn add(alloc: Global, at: u32, m: &mut Module, t: IrType) -> Result<(), NoMemory>
    requires { IsWellFormed t }
{
    if m.types.len() < LIMIT {
        m.types.add(alloc, t)?;
        m.type_at.push(at)?;
    }
    Ok(())
}

fn add_int(alloc: Global, at: u32, m: &mut Module, width: u64) -> Result<(), NoMemory> {
    if 1 <= width && width <= 64 {
        add(alloc, at, m, IrType::Int { width: width as u8 })?;
    }
    Ok(())
}

fn add_array(
    alloc: Global,
    at: u32,
    m: &mut Module,
    words: &mut SplitWhitespace<'_>,
) -> Result<(), NoMemory> {
    let count = number(words);
    let elem = ty(words);
    add(alloc, at, m, IrType::Array { count, elem })
}

/// Types by their numbers, to the end of the line.
fn fields(alloc: Global, words: &mut SplitWhitespace<'_>) -> Result<TypeList, NoMemory> {
    let mut list = TypeList::new(alloc);
    for _ in 0..id(words) {
        list.push(ty(words))?;
    }
    Ok(list)
}

fn add_struct(
    alloc: Global,
    at: u32,
    m: &mut Module,
    packed: bool,
    words: &mut SplitWhitespace<'_>,
) -> Result<(), NoMemory> {
    let fields = fields(alloc, words)?;
    add(alloc, at, m, IrType::Struct { fields, packed })
}

/// Adds the type of a line.
pub(crate) fn add_type(
    alloc: Global,
    at: u32,
    m: &mut Module,
    words: &mut SplitWhitespace<'_>,
) -> Result<(), NoMemory> {
    match word(words) {
        "int" => add_int(alloc, at, m, number(words)),
        "ptr" => add(alloc, at, m, IrType::Ptr),
        "array" => add_array(alloc, at, m, words),
        "struct" => add_struct(alloc, at, m, false, words),
        "packed" => add_struct(alloc, at, m, true, words),
        "opaque" => add(alloc, at, m, IrType::Opaque),
        _ => add(alloc, at, m, IrType::Void),
    }
}

fn put(line: &mut Line, answer: Result<u64, TypeRefusal>) {
    match answer {
        Ok(n) => line.number(n),
        Err(TypeRefusal::Unsized) => line.word("unsized"),
        Err(TypeRefusal::Deep) => line.word("deep"),
        Err(TypeRefusal::Huge) => line.word("huge"),
    }
}

/// The offset of a field, if there is such a field.
fn offset(table: &TypeTable, t: TypeId, i: u32) -> Option<Result<u64, TypeRefusal>>
    requires { t.0 < length table.now }
{
    let IrType::Struct { fields, .. } = table.get(t) else {
        return None;
    };
    if i as usize >= fields.len() {
        return None;
    }
    Some(table.field_offset(t, i))
}

fn put_offset(line: &mut Line, table: &TypeTable, t: TypeId, i: u32)
    requires { t.0 < length table.now }
{
    match offset(table, t, i) {
        Some(start) => put(line, start),
        None => line.word("no such field"),
    }
}

/// Answers a question for a type; answers whether it is one.
pub(crate) fn ask(
    table: &TypeTable,
    question: &str,
    words: &mut SplitWhitespace<'_>,
    line: &mut Line,
) -> bool {
    let t = ty(words);
    if t.0 as usize >= table.len() {
        return false;
    }
    match question {
        "size" => put(line, table.size_of(t)),
        "align" => put(line, table.align_of(t)),
        "offset" => put_offset(line, table, t, id(words)),
        _ => return false,
    }
    true
}
