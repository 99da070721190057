//! Entities, put behind those before them.
ghost use Rattle.std.specs.Prelude.{◌≡◌, ◌||◌, not, codes, OnOk};
ghost use Rattle.std.specs.Str.{bytes_eq};
ghost use Rattle.std.specs.List.{flat_map};
ghost use Rattle.ir_attrs.specs.Leaves as leaves;
ghost use Rattle.ir_bodies.specs.Groups.{group_faults};
ghost use Rattle.ir_literals.specs.Layouts as layouts;
ghost use Rattle.ir_scopes.specs.Faults.{first_in};
ghost use Rattle.ir_tree.specs.declared.entities.Entity.TheVariants as entity_of;
ghost use Rattle.ir_resolve.specs.Building.{setting_of, IsSound, IsReady, Adds, AddsAll};
ghost use Rattle.ir_resolve.specs.Entities as spec;

use crate::desk::{Desk, initials, is_group};
use crate::state::Resolving;
use attr_ids::NoMemory;
use ir_headers::{global_of, leaf_text};
use ir_literals::is_layout;
use ir_scopes::{Cause, NameFault, is_lifetime_name, note_unless};
use ir_tree::{Entity, GlobalVar, Leaf};
use std::alloc::Global;

/// What is between the quotes of a string.
fn inside_of(string: &[u8]) -> &[u8]
    ensures { result.now ≡ spec.inside_of string.now }
{
    if string.len() < 2 {
        return &string[..0];
    }
    &string[1..string.len() - 1]
}

/// Whether bytes are a word.
fn is_word(bytes: &[u8], word: &[u8]) -> bool
    ensures { result ≡ bytes_eq bytes.now word.now }
{
    bytes == word
}

/// Whether a target is no data layout, or one that is read.
fn is_read(desk: &Desk<'_>, which: Leaf, text: Leaf) -> bool
    ensures { result ≡ spec.is_read (setting_of desk.now) which text }
{
    if !is_word(leaf_text(desk.text, desk.toks, which), b"datalayout") {
        return true;
    }
    is_layout(inside_of(leaf_text(desk.text, desk.toks, text)))
}

fn note_group(desk: &Desk<'_>, at: Leaf, found: &mut Option<NameFault>)
    requires { IsSound desk.now }
    ensures { found.new ≡ first_in found.old (group_faults (spec.outside (setting_of desk.now)) at) }
{
    note_unless(found, is_group(desk, at), Cause::Unknown, at);
}

/// Notes the groups that are defined nowhere.
fn note_groups(desk: &Desk<'_>, groups: &[Leaf], found: &mut Option<NameFault>)
    requires { IsSound desk.now }
    ensures { found.new ≡ first_in found.old (flat_map (group_faults (spec.outside (setting_of desk.now))) groups.now) }
{
    for at in groups {
        note_group(desk, *at, found);
    }
}

impl Resolving {
    /// Puts in a global variable.
    fn global(&mut self, alloc: Global, desk: &Desk<'_>, global: &GlobalVar) -> Result<(), NoMemory>
        requires sound { IsSound desk.now }
        requires ready { IsReady self.old }
        ensures { OnOk result (Adds (setting_of desk.now) (entity_of.GlobalVar global.now) self.old self.new) }
    {
        let src = initials(desk);
        let made = global_of(alloc, &src, global, &mut self.builder.notes)?;
        note_groups(
            desk,
            global.groups.as_slice(),
            &mut self.builder.notes.found,
        );
        let well = !is_lifetime_name(made.name.as_slice());
        note_unless(
            &mut self.builder.notes.found,
            well,
            Cause::Twice,
            global.name,
        );
        self.globals.push(made)?;
        Ok(())
    }

    /// Puts in an entity.
    fn entity(&mut self, alloc: Global, desk: &Desk<'_>, entity: &Entity) -> Result<(), NoMemory>
        requires sound { IsSound desk.now }
        requires ready { IsReady self.old }
        ensures { OnOk result (Adds (setting_of desk.now) entity.now self.old self.new) }
    {
        match entity {
            Entity::GlobalVar(global) => self.global(alloc, desk, global.get()),
            Entity::Declare(declare) => {
                let declare = declare.get();
                self.function(alloc, desk, declare.word, &declare.header, None, 0)
            }
            Entity::Define(define) => {
                let define = define.get();
                let body = Some(&define.body);
                self.function(alloc, desk, define.word, &define.header, body, define.close)
            }
            Entity::Target { which, text } => {
                let found = &mut self.builder.notes.found;
                note_unless(found, is_read(desk, *which, *text), Cause::Layout, *text);
                Ok(())
            }
            _ => Ok(()),
        }
    }

    /// Puts in entities.
    pub(crate) fn entities(
        &mut self,
        alloc: Global,
        desk: &Desk<'_>,
        entities: &[Entity],
    ) -> Result<(), NoMemory>
        requires sound { IsSound desk.now }
        requires ready { IsReady self.old }
        ensures { OnOk result (AddsAll (setting_of desk.now) entities.now self.old self.new) }
    {
        for entity in entities {
            self.entity(alloc, desk, entity)?;
        }
        Ok(())
    }
}
