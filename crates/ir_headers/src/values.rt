//! Where the values of a module are made.
ghost use Rattle.std.specs.Prelude.{◌≡◌, ◌++◌, IfOk, OnOk};
ghost use Rattle.ir_headers.specs.Values as spec;

use crate::params::one_more;
use attr_ids::{FuncId, NoMemory, SegId};
use ir_module::{Def, Instr, Param, Seg, Spot, ValueInfo};

/// Puts in the parameters of a function.
pub fn push_params(
    values: &mut Vec<ValueInfo>,
    func: FuncId,
    params: &[Param],
) -> Result<(), NoMemory>
    ensures { OnOk result (values.new.items ≡ values.old.items ++ spec.param_values func 0 params.now) }
{
    let mut at = 0;
    let mut rest = params;
    while let [param, others @ ..] = rest {
        values.push(ValueInfo {
            func,
            ty: param.ty,
            def: Def::Param(at),
        })?;
        at = one_more(at)?;
        rest = others;
    }
    Ok(())
}

/// Puts in the value of an instruction at a spot, where it gives one.
fn push_result(
    values: &mut Vec<ValueInfo>,
    func: FuncId,
    spot: Spot,
    instr: &Instr,
) -> Result<(), NoMemory>
    ensures { OnOk result (values.new.items ≡ values.old.items ++ spec.result_at func spot.seg.0 spot.at instr.now instr.now.result) }
{
    match instr.result {
        Some(_) => {
            values.push(ValueInfo {
                func,
                ty: instr.ty,
                def: Def::Instr(spot),
            })?;
            Ok(())
        }
        None => Ok(()),
    }
}

/// Puts in the results of the instructions of a segment.
fn push_results(
    values: &mut Vec<ValueInfo>,
    func: FuncId,
    seg: SegId,
    instrs: &[Instr],
) -> Result<(), NoMemory>
    ensures { OnOk result (values.new.items ≡ values.old.items ++ spec.results_in func seg.0 0 instrs.now) }
{
    let mut at = 0;
    let mut rest = instrs;
    while let [instr, others @ ..] = rest {
        push_result(values, func, Spot { seg, at }, instr)?;
        at = one_more(at)?;
        rest = others;
    }
    Ok(())
}

/// Puts in the results of segments, of which this is the number of the first.
pub fn push_segs(
    values: &mut Vec<ValueInfo>,
    func: FuncId,
    first: u32,
    segs: &[Seg],
) -> Result<(), NoMemory>
    ensures { OnOk result (values.new.items ≡ values.old.items ++ spec.results_of func first segs.now) }
{
    let mut number = first;
    let mut rest = segs;
    while let [seg, others @ ..] = rest {
        push_results(values, func, SegId(number), seg.instrs.as_slice())?;
        number = one_more(number)?;
        rest = others;
    }
    Ok(())
}
