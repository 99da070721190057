//! Names of types that stand for none.
ghost use Rattle.std.specs.Prelude.{◌≡◌};
ghost use Rattle.std.specs.List.{flat_map};
ghost use Rattle.ir_scopes.specs.Faults.{first_in};
ghost use Rattle.ir_type_uses.specs.Uses.{listed};
ghost use Rattle.ir_type_names.specs.Reading.{reading};
ghost use Rattle.ir_type_names.specs.Unknown as spec;

use crate::source::{Source, is_named};
use ir_scopes::{Cause, NameFault, note_unless};
use ir_tree::Ty;
use ir_type_uses::TypeUse;

/// Notes the names in these types that are unknown.
#[cycle(unknown)]
fn note_parts(source: &Source<'_>, parts: &[Ty], found: &mut Option<NameFault>)
    ensures { found.new ≡ first_in found.old (flat_map (spec.unknown_in (reading source.now)) parts.now) }
{
    for part in parts {
        note_unknown(source, part, found);
    }
}

/// Notes the names in a type that are unknown.
#[cycle(unknown)]
#[tactic(auto, using(crate::proofs::Trees::type_equations))]
fn note_unknown(source: &Source<'_>, ty: &Ty, found: &mut Option<NameFault>)
    ensures { found.new ≡ first_in found.old (spec.unknown_in (reading source.now) ty.now) }
{
    match ty {
        Ty::Void(_) | Ty::Int(_) | Ty::Ptr(_) => {}
        Ty::Named(name) => note_unless(found, is_named(source, *name), Cause::Unknown, *name),
        Ty::Array { elem, .. } => note_unknown(source, elem.get(), found),
        Ty::Struct { parts, .. } => note_parts(source, parts.as_slice(), found),
        Ty::Packed { parts, .. } => note_parts(source, parts.as_slice(), found),
    }
}

/// Notes the names of types in a module that are unknown, these being the types that it writes.
pub fn note_unknown_types(source: &Source<'_>, uses: &[TypeUse<'_>], found: &mut Option<NameFault>)
    ensures { found.new ≡ first_in found.old (spec.unknown_uses (reading source.now) (listed uses.now)) }
{
    for u in uses {
        note_unknown(source, u.ty, found);
    }
}
