//! What the entities of a module are read with.
ghost use Rattle.std.specs.Prelude.{◌≡◌, ◌||◌, not, nat_eq, slice_index, codes};
ghost use Rattle.std.specs.Option.{is_some};
ghost use Rattle.std.specs.Str.{bytes_eq};
ghost use Rattle.indexmap.specs.IndexMap.{get};
ghost use Rattle.ir_attrs.specs.Leaves as leaves;
ghost use Rattle.ir_operands.specs.declared.rule.Site.TheVariants.{Initial};
ghost use Rattle.ir_consts.specs.Source.{reading as constants};
ghost use Rattle.ir_bodies.specs.Context.{context as context_of, IsSound as IsSoundScene};
ghost use Rattle.ir_resolve.specs.Building.{setting_of, IsSound};
ghost use Rattle.ir_resolve.specs.Inputs.{context, at_site};

use ir_attrs::Groups;
use ir_bodies::Scene;
use ir_instrs::Source;
use ir_operands::Site;
use ir_scopes::{Names, Voids, id_at};
use ir_token::Token;
use ir_tree::{Entity, Leaf};
use ir_type_names::TypeIds;
use ir_types::TypeTable;

/// What the entities of a module are read with.
#[derive(Clone, Copy)]
pub struct Desk<'a> {
    pub text: &'a [u8],
    pub toks: &'a [Token],
    /// The number of each token's name.
    pub ids: &'a [u32],
    pub entities: &'a [Entity],
    /// What the names of functions and globals stand for.
    pub symbols: &'a Names,
    /// The numbers of written types.
    pub kinds: &'a TypeIds<'a>,
    pub types: &'a TypeTable,
    /// The canonical number of each type.
    pub numbers: &'a [u32],
    /// The names of types whose content is void.
    pub voids: &'a Voids,
    /// What the groups say.
    pub groups: &'a Groups,
}

/// What initial values are read with.
pub(crate) fn initials<'a>(desk: &Desk<'a>) -> ir_consts::Source<'a>
    ensures { constants result ≡ at_site Initial (setting_of desk.now) }
{
    ir_consts::Source {
        text: desk.text,
        toks: desk.toks,
        ids: desk.ids,
        symbols: desk.symbols,
        kinds: desk.kinds,
        types: desk.types,
        numbers: desk.numbers,
        site: Site::Initial,
    }
}

/// What a function is read with, whose values and blocks have these names.
#[tactic(auto, unfolding(ir_instrs::specs::Reading::reading))]
pub(crate) fn scene_of<'a>(desk: &Desk<'a>, names: &'a Names) -> Scene<'a>
    requires { IsSound desk.now }
    ensures context { context_of result ≡ context (setting_of desk.now) (get nat_eq names.now) }
    ensures sound { IsSoundScene result }
{
    Scene {
        source: Source {
            text: desk.text,
            toks: desk.toks,
            ids: desk.ids,
            names,
            symbols: desk.symbols,
            kinds: desk.kinds,
            types: desk.types,
            numbers: desk.numbers,
        },
        voids: desk.voids,
        entities: desk.entities,
        groups: desk.groups,
    }
}

/// Whether a group is defined.
pub(crate) fn is_group(desk: &Desk<'_>, at: Leaf) -> bool
    requires { IsSound desk.now }
    ensures { result ≡ is_some ((setting_of desk.now).groups (slice_index (setting_of desk.now).ids at)) }
{
    desk.groups.contains_key(&id_at(desk.ids, at))
}
