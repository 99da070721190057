//! Laws of the definitions: each has no parameter and an empty body, and its contract is the law.
ghost use Rattle.std.specs.Prelude.{◌≡◌, ℕ, List};
ghost use Rattle.std.specs.List.{flat_map};
ghost use Rattle.ir_tree.specs.declared.instructions.Instr.{Instr};
ghost use Rattle.ir_tree.specs.declared.instructions.Term.{Term};
ghost use Rattle.ir_module.specs.declared.op.Instr.{Instr as Made};
ghost use Rattle.ir_module.specs.Operands.{operands};
ghost use Rattle.ir_instrs.specs.Reading.{Reading, Parts};
ghost use Rattle.ir_instrs.specs.Terms.{term_of, term_uses};
ghost use Rattle.ir_bodies.specs.Context.{Context};
ghost use Rattle.ir_bodies.specs.Instrs.{op_of, uses_of};
ghost use Rattle.ir_bodies.specs.Bodies as bodies;
ghost use Rattle.ir_bodies.specs.Bodies.{Part};
ghost use Rattle.ir_bodies.specs.Order.{reads, HasBase, results, AreCounted};

/// The operands of an instruction are the values that its tree writes, in the order of the text, each with its written type
/// and the offset of its first token.
pub fn operands_are_those_written()
    ensures instrs { (x : Context) (ps : Parts) (i : Instr) → HasBase i → operands (op_of x ps i) ≡ reads x.reading ps (uses_of x.reading i) }
    ensures terms { (r : Reading) (ps : Parts) (x : Term) → operands (term_of r ps x) ≡ reads r ps (term_uses r x) }
{}

/// The results of the instructions of a body follow one another, in the order of the text, with none left out.
pub fn results_are_counted()
    ensures { (x : Context) (v : ℕ) (laid : Parts) (close : ℕ) (ps : List Part) →
        AreCounted v (bodies.values_of x v ps) (results (flat_map (λ is. is) (bodies.instrs_of x v laid close ps))) }
{}

/// The segments of blocks have all of their instructions, in order.
pub fn segments_have_all_instructions()
    ensures { (b : ℕ) (iss : List (List Made)) → flat_map (λ s. s.instrs) (bodies.segs_of b iss) ≡ flat_map (λ is. is) iss }
{}
