//! Global variables.
ghost use Rattle.std.specs.Prelude.{◌≡◌, IfOk, OnOk};
ghost use Rattle.ir_token.specs.Lists.{AreTokens};
ghost use Rattle.ir_operands.specs.Constants.{ArePartsBelow};
ghost use Rattle.ir_scopes.specs.Faults.{first_in};
ghost use Rattle.ir_consts.specs.Source.{reading};
ghost use Rattle.ir_consts.specs.Reading.{AreThere};
ghost use Rattle.ir_headers.specs.Globals as spec;

use crate::leaves::{leaf_from, name_of};
use crate::linkage::linkage_of;
use attr_ids::{NoMemory, TypeId};
use ir_attrs::global_align;
use ir_consts::{Laid, Source, constant};
use ir_module::{GlobalVar, Written};
use ir_tree::Const;
use std::alloc::Global;

/// An initial value, where one is written.
fn initial_of(
    alloc: Global,
    src: &Source<'_>,
    ty: TypeId,
    initial: &Option<Const>,
    out: &mut Laid,
) -> Result<Option<Written>, NoMemory>
    requires there { AreThere (reading src.now) }
    requires below { ArePartsBelow out.old.parts.items }
    ensures value { IfOk result (λ made. made ≡ spec.initial_of (reading src.now) ty out.old.parts.items initial.now) }
    ensures parts { OnOk result (out.new.parts.items ≡ spec.behind_initial (reading src.now) ty out.old.parts.items initial.now) }
    ensures found { OnOk result (out.new.found ≡ first_in out.old.found (spec.initial_faults (reading src.now) initial.now)) }
    ensures below { OnOk result (ArePartsBelow out.new.parts.items) }
{
    match initial {
        Some(c) => {
            let made = constant(alloc, src, ty, c, out)?;
            Ok(Some(made))
        }
        None => Ok(None),
    }
}

/// A global variable. The parts of its initial value are put behind those that are there.
pub fn global_of(
    alloc: Global,
    src: &Source<'_>,
    global: &ir_tree::GlobalVar,
    out: &mut Laid,
) -> Result<GlobalVar, NoMemory>
    requires there { AreThere (reading src.now) }
    requires tokens { AreTokens (reading src.now).text (reading src.now).toks }
    requires below { ArePartsBelow out.old.parts.items }
    ensures value { IfOk result (λ made. made ≡ spec.global_of (reading src.now) out.old.parts.items global.now) }
    ensures parts { OnOk result (out.new.parts.items ≡ spec.behind_global (reading src.now) out.old.parts.items global.now) }
    ensures found { OnOk result (out.new.found ≡ first_in out.old.found (spec.initial_faults (reading src.now) global.now.initial)) }
    ensures below { OnOk result (ArePartsBelow out.new.parts.items) }
{
    let (text, toks) = (src.text, src.toks);
    let name = name_of(alloc, text, toks, global.name)?;
    let ty = src.kinds.id(alloc, &global.ty)?;
    let init = initial_of(alloc, src, ty, &global.initial, out)?;
    Ok(GlobalVar {
        name,
        linkage: linkage_of(text, toks, global.linkage),
        ty,
        init,
        align: global_align(text, toks, global.tails.as_slice()),
        at: leaf_from(toks, global.name),
    })
}
