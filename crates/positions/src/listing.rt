//! The positions of each kind, put behind a list one after the other. A table tells where the part of each
//! function or value begins.
ghost use Rattle.std.specs.Prelude.{◌≡◌, ◌+◌, ◌^◌, ◌<◌, ◌++◌, ℕ, length, OnOk, IfOk};
ghost use Rattle.facts.specs.Bodies.{param_count};
ghost use Rattle.positions.specs.Order.{up_to, segment_at, body_at, value_at, entry_at, entries_at, return_at, word_at, row_at, effect_at};
ghost use Rattle.positions.specs.Numbering.{starts};

use crate::module::{is_body, is_pointer_param, is_value_of_body};
use attr_ids::{FuncId, NoMemory, SegId, ValueId};
use facts::Pos;
use ir_module::Module;
use std::alloc::Global;

/// Each segment.
pub(crate) fn list_segments(list: &mut Vec<Pos>, count: u32) -> Result<(), NoMemory>
    ensures { OnOk result (list.new.items ≡ list.old.items ++ up_to segment_at count) }
{
    for k in 0..count {
        list.push(Pos::Segment(SegId(k)))?;
    }
    Ok(())
}

/// A function, if it is a body.
fn list_body(m: &Module, list: &mut Vec<Pos>, f: u32) -> Result<(), NoMemory>
    ensures { OnOk result (list.new.items ≡ list.old.items ++ body_at m.now f) }
{
    if is_body(m, f) {
        list.push(Pos::Function(FuncId(f)))?;
        return Ok(());
    }
    Ok(())
}

/// Each body.
pub(crate) fn list_bodies(
    alloc: Global,
    m: &Module,
    list: &mut Vec<Pos>,
) -> Result<Vec<u32>, NoMemory>
    requires few { length m.now.funcs < 2 ^ 31 }
    requires room { length list.old.items + length (up_to (body_at m.now) (length m.now.funcs)) < 2 ^ 32 }
    ensures list { IfOk result (λ _. list.new.items ≡ list.old.items ++ up_to (body_at m.now) (length m.now.funcs)) }
    ensures starts { IfOk result (λ table. table.items ≡ starts (length list.old.items) (body_at m.now) (length m.now.funcs)) }
{
    let room = m.funcs.len();
    let mut table = Vec::with_capacity(alloc, room)?;
    for f in 0..m.funcs.len() as u32 {
        table.push(list.len() as u32)?;
        list_body(m, list, f)?;
    }
    Ok(table)
}

/// A value, if it is one of a body.
fn list_value(m: &Module, list: &mut Vec<Pos>, v: u32) -> Result<(), NoMemory>
    ensures { OnOk result (list.new.items ≡ list.old.items ++ value_at m.now v) }
{
    if is_value_of_body(m, v) {
        list.push(Pos::Value(ValueId(v)))?;
        return Ok(());
    }
    Ok(())
}

/// Each value of a body.
pub(crate) fn list_values(
    alloc: Global,
    m: &Module,
    list: &mut Vec<Pos>,
) -> Result<Vec<u32>, NoMemory>
    requires few { length m.now.values < 2 ^ 31 }
    requires room { length list.old.items + length (up_to (value_at m.now) (length m.now.values)) < 2 ^ 32 }
    ensures list { IfOk result (λ _. list.new.items ≡ list.old.items ++ up_to (value_at m.now) (length m.now.values)) }
    ensures starts { IfOk result (λ table. table.items ≡ starts (length list.old.items) (value_at m.now) (length m.now.values)) }
{
    let room = m.values.len();
    let mut table = Vec::with_capacity(alloc, room)?;
    for v in 0..m.values.len() as u32 {
        table.push(list.len() as u32)?;
        list_value(m, list, v)?;
    }
    Ok(table)
}

/// A parameter, if it is a pointer.
fn list_param(m: &Module, list: &mut Vec<Pos>, f: u32, at: u8) -> Result<(), NoMemory>
    ensures { OnOk result (list.new.items ≡ list.old.items ++ entry_at m.now f at) }
{
    if is_pointer_param(m, f, at as u32) {
        list.push(Pos::Entry(FuncId(f), at))?;
        return Ok(());
    }
    Ok(())
}

/// Each pointer among the first `count` parameters of a function.
fn list_params(m: &Module, list: &mut Vec<Pos>, f: u32, count: u32) -> Result<(), NoMemory>
    requires function { f < length m.now.funcs }
    requires few { count < 256 }
    ensures { OnOk result (list.new.items ≡ list.old.items ++ up_to (entry_at m.now f) count) }
{
    for at in 0..count {
        list_param(m, list, f, at as u8)?;
    }
    Ok(())
}

/// Each pointer parameter of a body.
fn list_entries_of(m: &Module, list: &mut Vec<Pos>, f: u32) -> Result<(), NoMemory>
    requires function { f < length m.now.funcs }
    requires few { param_count m.now f < 256 }
    ensures { OnOk result (list.new.items ≡ list.old.items ++ entries_at m.now f) }
{
    if is_body(m, f) {
        return list_params(
            m,
            list,
            f,
            m.funcs.as_slice()[f as usize].params.len() as u32,
        );
    }
    Ok(())
}

/// Each pointer parameter of each body.
pub(crate) fn list_entries(
    alloc: Global,
    m: &Module,
    list: &mut Vec<Pos>,
) -> Result<Vec<u32>, NoMemory>
    requires few { length m.now.funcs < 2 ^ 31 }
    requires few_params { (f : ℕ) → param_count m.now f < 256 }
    requires room { length list.old.items + length (up_to (entries_at m.now) (length m.now.funcs)) < 2 ^ 32 }
    ensures list { IfOk result (λ _. list.new.items ≡ list.old.items ++ up_to (entries_at m.now) (length m.now.funcs)) }
    ensures starts { IfOk result (λ table. table.items ≡ starts (length list.old.items) (entries_at m.now) (length m.now.funcs)) }
{
    let room = m.funcs.len();
    let mut table = Vec::with_capacity(alloc, room)?;
    for f in 0..m.funcs.len() as u32 {
        table.push(list.len() as u32)?;
        list_entries_of(m, list, f)?;
    }
    Ok(table)
}

/// What a function returns, if it is a body.
fn list_return(m: &Module, list: &mut Vec<Pos>, f: u32) -> Result<(), NoMemory>
    ensures { OnOk result (list.new.items ≡ list.old.items ++ return_at m.now f) }
{
    if is_body(m, f) {
        list.push(Pos::Return(FuncId(f)))?;
        return Ok(());
    }
    Ok(())
}

/// What each body returns.
pub(crate) fn list_returns(m: &Module, list: &mut Vec<Pos>) -> Result<(), NoMemory>
    requires { length m.now.funcs < 2 ^ 31 }
    ensures { OnOk result (list.new.items ≡ list.old.items ++ up_to (return_at m.now) (length m.now.funcs)) }
{
    for f in 0..m.funcs.len() as u32 {
        list_return(m, list, f)?;
    }
    Ok(())
}

/// The words of one row.
fn list_row(list: &mut Vec<Pos>, row: u32, words: u32) -> Result<(), NoMemory>
    ensures { OnOk result (list.new.items ≡ list.old.items ++ up_to (word_at row) words) }
{
    for k in 0..words {
        list.push(Pos::Reach(row, k))?;
    }
    Ok(())
}

/// The words of each row, of so many words each.
pub(crate) fn list_rows(list: &mut Vec<Pos>, rows: u32, words: u32) -> Result<(), NoMemory>
    ensures { OnOk result (list.new.items ≡ list.old.items ++ up_to (λ row. up_to (word_at row) words) rows) }
{
    for row in 0..rows {
        list_row(list, row, words)?;
    }
    Ok(())
}

/// The effect of each segment.
pub(crate) fn list_effects(list: &mut Vec<Pos>, count: u32) -> Result<(), NoMemory>
    ensures { OnOk result (list.new.items ≡ list.old.items ++ up_to effect_at count) }
{
    for k in 0..count {
        list.push(Pos::Effect(SegId(k)))?;
    }
    Ok(())
}
