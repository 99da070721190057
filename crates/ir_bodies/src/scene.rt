//! What the trees of bodies are read with, and leaves of them.
ghost use Rattle.std.specs.Prelude.{◌≡◌, slice_range, slice_index, slice_get};
ghost use Rattle.std.specs.Option.{is_some};
ghost use Rattle.ir_attrs.specs.Leaves as leaves;
ghost use Rattle.ir_attrs.specs.Params as params;
ghost use Rattle.ir_attrs.specs.Places as places;
ghost use Rattle.ir_scopes.specs.Results as results;
ghost use Rattle.ir_bodies.specs.Context.{context, IsSound};
ghost use Rattle.ir_bodies.specs.Bodies as bodies;

use attr_ids::Span;
use ir_attrs::Groups;
use ir_instrs::Source;
use ir_module::ParamAttrs;
use ir_scopes::{Voids, id_at};
use ir_tree::{Entity, Instr, Leaf, Rattr, Ty};

/// What the tree of a body is read with.
#[derive(Clone, Copy)]
pub struct Scene<'a> {
    pub source: Source<'a>,
    /// The names of types whose content is void.
    pub voids: &'a Voids,
    /// The entities of the module, and what their groups say.
    pub entities: &'a [Entity],
    pub groups: &'a Groups,
}

/// The bytes of a span, as far as the text has them.
fn cut(text: &[u8], span: Span) -> &[u8]
    ensures { result.now ≡ slice_range text.now span.from span.to }
{
    let from = span.from as usize;
    let to = (span.to as usize).min(text.len());
    if from < to {
        &text[from..to]
    } else {
        &text[..0]
    }
}

/// The offset of a leaf.
#[tactic(auto, unfolding(ir_instrs::specs::Reading::reading))]
pub fn leaf_from(scene: &Scene<'_>, leaf: Leaf) -> u32
    ensures { result ≡ leaves.leaf_from (context scene.now).reading.toks leaf }
{
    match scene.source.toks.get(leaf as usize) {
        Some(token) => token.span.from,
        None => 0,
    }
}

/// The offset behind a leaf.
#[tactic(auto, unfolding(ir_instrs::specs::Reading::reading))]
pub fn leaf_to(scene: &Scene<'_>, leaf: Leaf) -> u32
    ensures { result ≡ leaves.leaf_to (context scene.now).reading.toks leaf }
{
    match scene.source.toks.get(leaf as usize) {
        Some(token) => token.span.to,
        None => 0,
    }
}

/// The text of a label without its colon.
#[tactic(auto, unfolding(ir_instrs::specs::Reading::reading))]
pub fn label_text<'a>(scene: &Scene<'a>, leaf: Leaf) -> &'a [u8]
    ensures { result.now ≡ bodies.label_text (context scene.now).reading.text (slice_get (context scene.now).reading.toks leaf) }
{
    match scene.source.toks.get(leaf as usize) {
        Some(token) => cut(
            scene.source.text,
            Span {
                from: token.span.from,
                to: token.span.to.saturating_sub(1),
            },
        ),
        None => &scene.source.text[..0],
    }
}

/// A leaf, or another one where it is missing.
pub fn or_leaf(other: Leaf, leaf: Option<Leaf>) -> Leaf
    ensures { result ≡ places.or_leaf other leaf }
{
    match leaf {
        Some(leaf) => leaf,
        None => other,
    }
}

/// The attributes of an argument or a return.
#[tactic(auto, unfolding(ir_instrs::specs::Reading::reading))]
pub fn param_attrs(scene: &Scene<'_>, words: &[Rattr]) -> ParamAttrs
    ensures { result ≡ params.param_attrs (context scene.now).reading.text (context scene.now).reading.toks words.now }
{
    ir_attrs::param_attrs(scene.source.text, scene.source.toks, words)
}

/// Whether a group is defined.
#[tactic(auto, unfolding(ir_instrs::specs::Reading::reading))]
pub fn is_group(scene: &Scene<'_>, at: Leaf) -> bool
    requires sound { IsSound scene.now }
    ensures { result ≡ is_some ((context scene.now).groups (slice_index (context scene.now).reading.ids at)) }
{
    scene.groups.contains_key(&id_at(scene.source.ids, at))
}

/// Whether an instruction gives a value.
#[tactic(auto, unfolding(ir_instrs::specs::Reading::reading))]
pub(crate) fn gives_result(scene: &Scene<'_>, instr: &Instr) -> bool
    ensures { result ≡ results.gives_result (context scene.now).reading.ids (context scene.now).void instr.now }
{
    ir_scopes::gives_result(scene.source.ids, scene.voids, instr)
}

/// Whether a type is void.
#[tactic(auto, unfolding(ir_instrs::specs::Reading::reading))]
pub fn is_void(scene: &Scene<'_>, ty: &Ty) -> bool
    ensures { result ≡ results.is_void (context scene.now).reading.ids (context scene.now).void ty.now }
{
    ir_scopes::is_void(scene.source.ids, scene.voids, ty)
}
