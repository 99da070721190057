//! Questions for the verifier's rules: `rule 13 0 2` is whether the instruction number 2 of segment 0 keeps V13, `header 3 1` whether
//! the header of function 1 keeps V3, `variable 3 0` whether global 0 does, `counted 4` whether type 4 keeps V17, and `one 3 4` whether
//! two types are one.
ghost use Rattle.std.specs.Prelude.{ℕ, ◌≡◌, ◌<◌, ◌^◌, Some, length, slice_get, IfOk};
ghost use Rattle.ir_module.specs.WellFormed.{IsWellFormed, IsGlobalFormed};
ghost use Rattle.ir_module.specs.Formed.{AreConstants};
ghost use Rattle.ir_rules.specs.Named.{HasNames};
ghost use Rattle.ir_rules.specs.Survey.{IsSurveyOf};

use crate::line::Line;
use crate::words::id;
use attr_ids::{FuncId, NoMemory, Offsets, SegId, TypeId};
use ir_module::{Block, Func, GlobalVar, Instr, Module, Seg, Spot, is_well_formed};
use ir_operands::{ConstantRule, are_one};
use ir_rules::{
    Survey, branches, calls_as_written, casts, gather, has_arms, has_fitting_count,
    has_fitting_literals, has_good_header, has_init, has_linkage, has_pads, has_personality,
    has_pointer_address, has_scalar_header, has_scalars, has_sizes, has_written_types,
    header_keeps, indexes, init_keeps, is_aligned, is_aligned_global, is_on_integers, is_pad_pair,
    is_scalar_init, is_sized_global, leaves_entry_free, phi_count, phis_come_first, returns,
    selects,
};
use ir_type_equality::canonical;
use std::alloc::Global;
use std::str::SplitWhitespace;

/// What the rules are asked with.
#[derive(Drop)]
struct Known {
    numbers: Offsets,
    survey: Survey,
}

/// Whether an instruction keeps a rule that speaks of it and of its operands alone.
fn alone(
    alloc: Global,
    m: &Module,
    numbers: &[u32],
    rule: u32,
    instr: &Instr,
) -> Result<bool, NoMemory>
    requires formed { IsWellFormed m.now }
    requires named { HasNames m.now instr.now }
{
    Ok(match rule {
        1 => has_scalars(m, numbers, instr),
        2 => has_sizes(m, numbers, instr),
        7 => has_written_types(m, numbers, instr),
        8 => is_on_integers(m, &instr.op),
        9 => casts(m, instr),
        10 => has_pointer_address(m, &instr.op),
        11 => indexes(m, numbers, instr),
        12 => branches(alloc, m, numbers, &instr.op)?,
        14 => selects(m, numbers, &instr.op),
        15 => calls_as_written(m, numbers, instr),
        16 => is_aligned(&instr.op),
        17 => has_fitting_literals(m, numbers, instr),
        _ => is_pad_pair(m, instr),
    })
}

/// Whether instruction `i` of segment number `k` keeps a rule that speaks of where it stands.
fn placed(
    alloc: Global,
    m: &Module,
    known: &Known,
    rule: u32,
    block: &Block,
    k: usize,
    seg: &Seg,
    i: usize,
    instr: &Instr,
) -> Result<bool, NoMemory>
    requires formed { IsWellFormed m.now }
    requires surveyed { IsSurveyOf m.now known.now.survey }
    requires there { seg.now.block.0 < length m.now.blocks }
    requires inside { i < length seg.now.instrs }
    requires named { HasNames m.now instr.now }
{
    let phis = phi_count(seg.instrs.as_slice());
    let numbers = known.numbers.as_slice();
    Ok(match rule {
        5 => phis_come_first(block, k, seg, phis, i, &instr.op),
        6 => has_arms(alloc, m, numbers, &known.survey, seg.block, instr)?,
        20 => has_pads(m, &known.survey, block, k, seg, phis, i, instr),
        _ => alone(alloc, m, numbers, rule, instr)?,
    })
}

/// Whether an instruction of a function keeps a rule.
fn instr_keeps(
    alloc: Global,
    m: &Module,
    known: &Known,
    rule: u32,
    s: Spot,
) -> Result<Option<bool>, NoMemory>
    requires formed { IsWellFormed m.now }
    requires surveyed { IsSurveyOf m.now known.now.survey }
{
    let Some(seg) = m.segs.get(s.seg.0 as usize) else {
        return Ok(None);
    };
    let Some(instr) = seg.instrs.get(s.at as usize) else {
        return Ok(None);
    };
    let block = m.block(seg.block);
    let func = m.func(block.func);
    Ok(Some(match rule {
        4 => leaves_entry_free(func, &instr.op),
        13 => returns(m, known.numbers.as_slice(), func, &instr.op),
        _ => placed(
            alloc,
            m,
            known,
            rule,
            block,
            s.seg.0 as usize,
            seg,
            s.at as usize,
            instr,
        )?,
    }))
}

/// Whether a header keeps a rule.
fn header_is_kept(m: &Module, numbers: &[u32], rule: u32, f: FuncId, func: &Func) -> bool
    requires formed { IsWellFormed m.now }
    requires there { f.0 < length m.now.funcs }
    requires named { AreConstants m.now func.now.extra }
{
    match rule {
        1 => has_scalar_header(m, numbers, func),
        2 => header_keeps(m, numbers, ConstantRule::Sized, func),
        3 => has_linkage(func),
        7 => header_keeps(m, numbers, ConstantRule::Fitting, func),
        11 => header_keeps(m, numbers, ConstantRule::Indexed, func),
        16 => has_good_header(func),
        17 => header_keeps(m, numbers, ConstantRule::InRange, func),
        _ => has_personality(m, f, func),
    }
}

/// The same of the header of this number, if there is one.
fn header_of(m: &Module, numbers: &[u32], rule: u32, f: u32) -> Option<bool>
    requires { IsWellFormed m.now }
{
    let func = m.funcs.get(f as usize)?;
    Some(header_is_kept(m, numbers, rule, FuncId(f), func))
}

/// Whether a global keeps a rule.
fn global_is_kept(m: &Module, numbers: &[u32], rule: u32, global: &GlobalVar) -> bool
    requires formed { IsWellFormed m.now }
    requires named { IsGlobalFormed m.now global.now }
{
    match rule {
        1 => is_scalar_init(m, numbers, global),
        2 => is_sized_global(m, numbers, global),
        3 => has_init(global),
        7 => init_keeps(m, numbers, ConstantRule::Fitting, global),
        11 => init_keeps(m, numbers, ConstantRule::Indexed, global),
        16 => is_aligned_global(global),
        _ => init_keeps(m, numbers, ConstantRule::InRange, global),
    }
}

/// The same of the global of this number, if there is one.
fn global_of(m: &Module, numbers: &[u32], rule: u32, g: u32) -> Option<bool>
    requires { IsWellFormed m.now }
{
    let global = m.globals.get(g as usize)?;
    Some(global_is_kept(m, numbers, rule, global))
}

/// Whether the type of this number keeps V17.
fn is_countable(m: &Module, t: u32) -> Option<bool> {
    let ty = m.types.as_slice().get(t as usize)?;
    Some(has_fitting_count(ty))
}

fn put(line: &mut Line, is_kept: Option<bool>) {
    match is_kept {
        Some(is_kept) => line.word(if is_kept { "kept" } else { "broken" }),
        None => line.word("not there"),
    }
}

/// Answers a question with these numbers.
fn put_answer(
    alloc: Global,
    m: &Module,
    known: &Known,
    question: &str,
    n: (u32, u32, u32),
    line: &mut Line,
)
    requires formed { IsWellFormed m.now }
    requires surveyed { IsSurveyOf m.now known.now.survey }
{
    let numbers = known.numbers.as_slice();
    match question {
        "rule" => {
            let s = Spot {
                seg: SegId(n.1),
                at: n.2,
            };
            match instr_keeps(alloc, m, known, n.0, s) {
                Ok(is_kept) => put(line, is_kept),
                Err(NoMemory) => line.lose(),
            }
        }
        "header" => put(line, header_of(m, numbers, n.0, n.1)),
        "variable" => put(line, global_of(m, numbers, n.0, n.1)),
        "counted" => put(line, is_countable(m, n.0)),
        _ => line.truth(are_one(numbers, TypeId(n.0), TypeId(n.1))),
    }
}

/// What the rules of a module are asked with.
fn gathered(alloc: Global, m: &Module) -> Result<Known, NoMemory>
    requires { IsWellFormed m.now }
    ensures { IfOk result (λ known. IsSurveyOf m.now known.survey) }
{
    let numbers = canonical(alloc, &m.types)?;
    let survey = gather(alloc, m)?;
    Ok(Known { numbers, survey })
}

/// Answers a question for a rule; answers whether it is one.
pub(crate) fn ask(
    alloc: Global,
    m: &Module,
    question: &str,
    words: &mut SplitWhitespace<'_>,
    line: &mut Line,
) -> bool {
    if !matches!(question, "rule" | "header" | "variable" | "counted" | "one") {
        return false;
    }
    if !is_well_formed(m) {
        line.word("not well formed");
        return true;
    }
    let n = (id(words), id(words), id(words));
    match gathered(alloc, m) {
        Ok(known) => put_answer(alloc, m, &known, question, n, line),
        Err(NoMemory) => line.lose(),
    }
    true
}
