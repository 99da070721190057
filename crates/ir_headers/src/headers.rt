//! Functions by their headers.
ghost use Rattle.std.specs.Prelude.{◌≡◌, IfOk};
ghost use Rattle.ir_token.specs.Lists.{AreTokens};
ghost use Rattle.ir_bodies.specs.Context.{context, IsSound};
ghost use Rattle.ir_headers.specs.Stand.{stand};
ghost use Rattle.ir_headers.specs.Headers as spec;

use crate::extras::has_personality;
use crate::leaves::{leaf_from, name_of, span_of};
use crate::linkage::linkage_of;
use crate::params::{is_variadic, params_of};
use attr_ids::NoMemory;
use ir_attrs::{func_attrs, func_places, param_attrs};
use ir_bodies::Scene;
use ir_instrs::type_of;
use ir_module::{Func, FuncAttrs, Operands};
use ir_tree::{Header, Leaf};
use std::alloc::Global;

/// Where a function stands: the first token of its entity, the number of its first parameter, and its blocks.
#[derive(Clone, Copy)]
pub struct Standing {
    pub at: Leaf,
    pub value: u32,
    pub block: u32,
    pub count: u32,
}

/// The attributes of a function, those of its groups among them.
#[tactic(auto, unfolding(ir_instrs::specs::Reading::reading))]
fn attrs_of(alloc: Global, scene: &Scene<'_>, header: &Header) -> Result<FuncAttrs, NoMemory>
    requires sound { IsSound scene.now }
    ensures { IfOk result (λ attrs. attrs ≡ spec.attrs_of (context scene.now) header.now) }
{
    let src = &scene.source;
    let words = header.attributes.as_slice();
    func_attrs(alloc, src.text, src.toks, src.ids, scene.groups, words)
}

/// A function by its header, with the constants of its tails.
#[tactic(auto, unfolding(ir_instrs::specs::Reading::reading))]
pub fn func_of(
    alloc: Global,
    scene: &Scene<'_>,
    standing: Standing,
    header: &Header,
    extra: Operands,
) -> Result<Func, NoMemory>
    requires sound { IsSound scene.now }
    requires tokens { AreTokens (context scene.now).reading.text (context scene.now).reading.toks }
    ensures { IfOk result (λ f. f ≡ spec.func_with (context scene.now) (stand standing) header.now extra) }
{
    let (text, toks) = (scene.source.text, scene.source.toks);
    let name = name_of(alloc, text, toks, header.name)?;
    let ret = type_of(alloc, &scene.source, &header.result)?;
    let params = params_of(alloc, &scene.source, standing.value, &header.params)?;
    let attrs = attrs_of(alloc, scene, header)?;
    Ok(Func {
        name,
        linkage: linkage_of(text, toks, header.linkage),
        ret,
        ret_attrs: param_attrs(text, toks, header.result_words.as_slice()),
        params,
        variadic: is_variadic(&header.params),
        attrs,
        places: func_places(toks, header),
        personality: has_personality(text, toks, header.tails.as_slice()),
        extra,
        token: span_of(toks, header.name),
        at: leaf_from(toks, standing.at),
        first_block: standing.block,
        block_count: standing.count,
    })
}
