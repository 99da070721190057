//! The blocks of a body.
ghost use Rattle.std.specs.Prelude.{◌≡◌, [], decimal, map, IfOk, OnOk};
ghost use Rattle.ir_operands.specs.Constants.{ArePartsBelow};
ghost use Rattle.ir_bodies.specs.Context.{context, IsSound};
ghost use Rattle.ir_bodies.specs.Bodies as spec;
ghost use Rattle.ir_bodies.specs.Building.{Puts, Builds};

use crate::builder::Builder;
use crate::scene::{Scene, label_text};
use attr_ids::{BlockId, FuncId, NoMemory, Sequence, Text};
use ir_tree::{Block, Body, Last, Leaf, Line};
use itoa::Buffer;
use std::alloc::Global;

/// The digits of a number.
fn digits(alloc: Global, number: u32) -> Result<Text, NoMemory>
    ensures { IfOk result (λ text. text ≡ decimal number) }
{
    let mut buffer = Buffer::new();
    let digits = buffer.format(number);
    Sequence::from_slice(alloc, digits.as_bytes())
}

/// The name of a block: that of its label, or the number that the counter has.
fn block_name(
    alloc: Global,
    scene: &Scene<'_>,
    counter: u32,
    label: Option<Leaf>,
) -> Result<Text, NoMemory>
    ensures { IfOk result (λ name. name ≡ spec.block_name (context scene.now) counter label) }
{
    match label {
        Some(at) => Sequence::from_slice(alloc, label_text(scene, at)),
        None => digits(alloc, counter),
    }
}

/// The number of the next of so many things. No text has so many that their number does not fit.
fn number(len: usize) -> Result<u32, NoMemory>
    ensures { IfOk result (λ n. n ≡ len) }
{
    u32::try_from(len).map_err(|_| NoMemory)
}

/// The token behind a block: the label of the next one, or the one behind all of them.
fn next_label(blocks: &[Block], close: Leaf) -> Leaf
    ensures { result ≡ spec.label_of (map spec.block_part blocks.now) close }
{
    match blocks {
        [block, ..] => block.label,
        [] => close,
    }
}

/// The function whose body is read, and the number of its first block, where this has no label.
#[derive(Clone, Copy)]
pub struct Owner {
    pub func: FuncId,
    pub counter: u32,
}

impl Builder {
    /// Puts a block in. `next` is the token behind it.
    fn block(
        &mut self,
        alloc: Global,
        scene: &Scene<'_>,
        owner: Owner,
        label: Option<Leaf>,
        lines: &[Line],
        last: &Last,
        next: Leaf,
    ) -> Result<(), NoMemory>
        requires run { self.old.cutter.run.items ≡ [] }
        requires sound { IsSound scene.now }
        requires below { ArePartsBelow self.old.notes.parts.items }
        ensures { OnOk result (Puts (context scene.now) owner.func owner.counter next (spec.part label lines.now last.now) self.old self.new) }
    {
        let count = number(self.blocks.len())?;
        let block = BlockId(count);
        let first_seg = number(self.cutter.segs.len())?;
        let name = block_name(alloc, scene, owner.counter, label)?;
        self.fill(alloc, scene, block, lines, last, next)?;
        self.cutter.finish(alloc, block)?;
        let end = number(self.cutter.segs.len())?;
        self.blocks.push(ir_module::Block {
            func: owner.func,
            name,
            first_seg,
            seg_count: end.saturating_sub(first_seg),
        })?;
        Ok(())
    }

    /// Puts in the blocks behind the first.
    fn blocks(
        &mut self,
        alloc: Global,
        scene: &Scene<'_>,
        owner: Owner,
        blocks: &[Block],
        close: Leaf,
    ) -> Result<(), NoMemory>
        requires run { self.old.cutter.run.items ≡ [] }
        requires sound { IsSound scene.now }
        requires below { ArePartsBelow self.old.notes.parts.items }
        ensures { OnOk result (Builds (context scene.now) owner.func owner.counter close (map spec.block_part blocks.now) self.old self.new) }
    {
        let mut rest = blocks;
        while let [block, tail @ ..] = rest {
            let (label, next) = (Some(block.label), next_label(tail, close));
            let lines = block.lines.as_slice();
            self.block(alloc, scene, owner, label, lines, &block.last, next)?;
            rest = tail;
        }
        Ok(())
    }

    /// Puts the body of a function in, behind the bodies before it. `close` is the token behind it.
    pub fn body(
        &mut self,
        alloc: Global,
        scene: &Scene<'_>,
        owner: Owner,
        body: &Body,
        close: Leaf,
    ) -> Result<(), NoMemory>
        requires run { self.old.cutter.run.items ≡ [] }
        requires sound { IsSound scene.now }
        requires below { ArePartsBelow self.old.notes.parts.items }
        ensures { OnOk result (Builds (context scene.now) owner.func owner.counter close (spec.parts body.now) self.old self.new) }
    {
        let (first, rest) = (&body.first, body.blocks.as_slice());
        let (label, next) = (first.label, next_label(rest, close));
        self.block(
            alloc,
            scene,
            owner,
            label,
            first.lines.as_slice(),
            &first.last,
            next,
        )?;
        self.blocks(alloc, scene, owner, rest, close)
    }
}
