//! Functions, put behind those before them.
ghost use Rattle.std.specs.Prelude.{◌≡◌, ◌++◌, ◌∷◌, [], nat_eq, drop, length, ◌-◌, IfOk, OnOk};
ghost use Rattle.ir_token.specs.Lists.{AreTokens};
ghost use Rattle.std.specs.Option.{option_copied};
ghost use Rattle.ir_bodies.specs.Context.{context as context_of, IsSound as IsSoundScene};
ghost use Rattle.ir_headers.specs.Values.{param_values, results_of};
ghost use Rattle.ir_headers.specs.Headers.{func_with};
ghost use Rattle.ir_headers.specs.Stand.{stand};
ghost use Rattle.ir_resolve.specs.Building.{setting_of, IsSound, IsReady, Puts, PutsFunction, Stores, before};

use crate::desk::{Desk, scene_of};
use crate::reading::{behind_params, note_all_groups, read_function};
use crate::state::{Mark, Resolving, counts_at, number};
use attr_ids::{FuncId, NoMemory};
use ir_bodies::{Owner, Scene};
use ir_headers::{Standing, func_of, push_params, push_segs};
use ir_module::{Func, Operands, Seg, ValueInfo};
use ir_scopes::{Cause, Counts, body_scope, is_wrong_marker, note_unless};
use ir_tree::{Body, Header, Leaf};
use std::alloc::Global;

/// Puts in the parameters of a function and the results in its segments, of which this is the number of the first.
fn push_values(
    values: &mut Vec<ValueInfo>,
    func: FuncId,
    made: &Func,
    first: u32,
    segs: &[Seg],
) -> Result<(), NoMemory>
    ensures { OnOk result (values.new.items ≡ values.old.items
        ++ (param_values func 0 made.now.params ++ results_of func first (drop first segs.now))) }
{
    push_params(values, func, made.params.as_slice())?;
    let first_at = (first as usize).min(segs.len());
    push_segs(values, func, first, &segs[first_at..])
}

impl Resolving {
    /// Where a function stands whose body has been read.
    fn standing(&self, at: Leaf, mark: Mark) -> Result<Standing, NoMemory>
        ensures at { IfOk result (λ s. s.at ≡ at) }
        ensures value { IfOk result (λ s. s.value ≡ mark.value) }
        ensures block { IfOk result (λ s. s.block ≡ mark.block) }
        ensures count { IfOk result (λ s. s.count ≡ length self.now.builder.blocks.items - mark.block) }
    {
        let blocks = number(self.builder.blocks.len())?;
        Ok(Standing {
            at,
            value: mark.value,
            block: mark.block,
            count: blocks.saturating_sub(mark.block),
        })
    }

    /// Puts in a function whose body has been read, with its values. It is noted where it is a wrong lifetime marker.
    fn put(
        &mut self,
        alloc: Global,
        desk: &Desk<'_>,
        scene: &Scene<'_>,
        standing: Standing,
        mark: Mark,
        header: &Header,
        extras: Operands,
    ) -> Result<(), NoMemory>
        requires sound { IsSoundScene scene.now }
        requires tokens { AreTokens (context_of scene.now).reading.text (context_of scene.now).reading.toks }
        ensures { OnOk result (Stores desk.now.types.now mark (func_with (context_of scene.now) (stand standing) header.now extras) header.now.name
            self.old self.new) }
    {
        let made = func_of(alloc, scene, standing, header, extras)?;
        let well = !is_wrong_marker(desk.types.as_slice(), &made);
        note_unless(
            &mut self.builder.notes.found,
            well,
            Cause::Twice,
            header.name,
        );
        let segs = self.builder.cutter.segs.as_slice();
        push_values(&mut self.values, mark.func, &made, mark.seg, segs)?;
        self.funcs.push(made)?;
        Ok(())
    }

    /// Puts in the text of a function whose names are known.
    fn text(
        &mut self,
        alloc: Global,
        desk: &Desk<'_>,
        scene: &Scene<'_>,
        behind: Counts,
        at: Leaf,
        header: &Header,
        body: Option<&Body>,
        close: Leaf,
    ) -> Result<(), NoMemory>
        requires sound { IsSoundScene scene.now }
        requires tokens { AreTokens (context_of scene.now).reading.text (context_of scene.now).reading.toks }
        requires ready { IsReady self.old }
        ensures { OnOk result (Puts desk.now.types.now (record { context = context_of scene.now; behind = behind; before = before self.old }) []
            (record { at = at; header = header.now; body = option_copied body.entry; close = close }) self.old self.new) }
    {
        let mark = self.mark()?;
        let owner = Owner {
            func: mark.func,
            counter: behind.counter,
        };
        let tails = header.tails.as_slice();
        let builder = &mut self.builder;
        let extras = read_function(builder, alloc, scene, owner, behind, tails, body, close)?;
        note_all_groups(scene, header, body, &mut self.builder.notes.found);
        let standing = self.standing(at, mark)?;
        self.put(alloc, desk, scene, standing, mark, header, extras)
    }

    /// Puts in a function: the first token of its entity, its header, its body where it is defined, and the token behind that.
    pub(crate) fn function(
        &mut self,
        alloc: Global,
        desk: &Desk<'_>,
        at: Leaf,
        header: &Header,
        body: Option<&Body>,
        close: Leaf,
    ) -> Result<(), NoMemory>
        requires sound { IsSound desk.now }
        requires ready { IsReady self.old }
        ensures { OnOk result (PutsFunction (setting_of desk.now)
            (record { at = at; header = header.now; body = option_copied body.entry; close = close }) self.old self.new) }
    {
        let counts = counts_at(self.mark()?);
        let found = self.builder.notes.found;
        let params = &header.params;
        let behind = behind_params(alloc, desk.ids, params, counts)?;
        let scope = body_scope(alloc, desk.ids, desk.voids, params, body, counts, found)?;
        self.builder.notes.found = scope.found;
        let scene = scene_of(desk, &scope.names);
        self.text(alloc, desk, &scene, behind, at, header, body, close)
    }
}
