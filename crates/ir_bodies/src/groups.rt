//! Groups that are named at calls and are defined nowhere.
ghost use Rattle.std.specs.Prelude.{◌≡◌};
ghost use Rattle.std.specs.List.{flat_map};
ghost use Rattle.ir_scopes.specs.Faults.{first_in};
ghost use Rattle.ir_bodies.specs.Context.{context, IsSound};
ghost use Rattle.ir_bodies.specs.Bodies as bodies;
ghost use Rattle.ir_bodies.specs.Groups as spec;

use crate::scene::{Scene, is_group};
use ir_scopes::{Cause, NameFault, note_unless};
use ir_tree::{Block, Body, Instr, Last, Line, Word};

fn note_word(scene: &Scene<'_>, word: &Word, found: &mut Option<NameFault>)
    requires sound { IsSound scene.now }
    ensures { found.new ≡ first_in found.old (spec.word_faults (context scene.now) word.now) }
{
    match word {
        Word::Fattr(_) => {}
        Word::Group(at) => note_unless(found, is_group(scene, *at), Cause::Unknown, *at),
    }
}

/// Notes the groups behind a closing parenthesis that are defined nowhere.
pub fn note_groups(scene: &Scene<'_>, words: &[Word], found: &mut Option<NameFault>)
    requires sound { IsSound scene.now }
    ensures { found.new ≡ first_in found.old (spec.words_faults (context scene.now) words.now) }
{
    for word in words {
        note_word(scene, word, found);
    }
}

fn note_instr(scene: &Scene<'_>, instr: &Instr, found: &mut Option<NameFault>)
    requires sound { IsSound scene.now }
    ensures { found.new ≡ first_in found.old (spec.instr_faults (context scene.now) instr.now) }
{
    if let Instr::Call(call) = instr {
        let words = call.get().called.arguments.attributes.as_slice();
        note_groups(scene, words, found);
    }
}

fn note_line(scene: &Scene<'_>, line: &Line, found: &mut Option<NameFault>)
    requires sound { IsSound scene.now }
    ensures { found.new ≡ first_in found.old (spec.line_faults (context scene.now) line.now) }
{
    match line {
        Line::Opaque(_) => {}
        Line::Instr { instr, .. } => note_instr(scene, instr.get(), found),
    }
}

fn note_lines(scene: &Scene<'_>, lines: &[Line], found: &mut Option<NameFault>)
    requires sound { IsSound scene.now }
    ensures { found.new ≡ first_in found.old (flat_map (spec.line_faults (context scene.now)) lines.now) }
{
    for line in lines {
        note_line(scene, line, found);
    }
}

fn note_last(scene: &Scene<'_>, last: &Last, found: &mut Option<NameFault>)
    requires sound { IsSound scene.now }
    ensures { found.new ≡ first_in found.old (spec.last_faults (context scene.now) last.now) }
{
    match last {
        Last::Term { .. } => {}
        Last::Invoke { invoke, .. } => {
            let words = invoke.get().called.arguments.attributes.as_slice();
            note_groups(scene, words, found);
        }
    }
}

fn note_block(scene: &Scene<'_>, block: &Block, found: &mut Option<NameFault>)
    requires sound { IsSound scene.now }
    ensures { found.new ≡ first_in found.old (spec.part_faults (context scene.now) (bodies.block_part block.now)) }
{
    note_lines(scene, block.lines.as_slice(), found);
    note_last(scene, &block.last, found);
}

fn note_blocks(scene: &Scene<'_>, blocks: &[Block], found: &mut Option<NameFault>)
    requires sound { IsSound scene.now }
    ensures { found.new ≡ first_in found.old (flat_map (λ b. spec.part_faults (context scene.now) (bodies.block_part b)) blocks.now) }
{
    for block in blocks {
        note_block(scene, block, found);
    }
}

/// Notes the groups that the calls of a body name and that are defined nowhere.
pub fn note_groups_of_body(scene: &Scene<'_>, body: &Body, found: &mut Option<NameFault>)
    requires sound { IsSound scene.now }
    ensures { found.new ≡ first_in found.old (spec.body_faults (context scene.now) (bodies.parts body.now)) }
{
    note_lines(scene, body.first.lines.as_slice(), found);
    note_last(scene, &body.first.last, found);
    note_blocks(scene, body.blocks.as_slice(), found);
}
