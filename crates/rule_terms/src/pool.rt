ghost use Rattle.std.specs.Prelude.{◌≡◌, ◌+◌, ◌^◌, ◌<◌, [], ◌∷◌, ◌++◌, length, IsTrue, IfOk, OnOk, slice_get, ◌↔◌, Some};
ghost use Rattle.rule_terms.specs.Names.{is_over, names_of, with_name, with_names};
ghost use Rattle.rule_terms.specs.Pool.{IsMarked, IsPool, IsRemarked, AreApart, GoesOn, Has};
ghost use Rattle.rule_terms.specs.Slots.{IsBehind};

use crate::term::{NewTerm, Term, TermId};
use attr_ids::{NoMemory, PosId};

/// The slots of a system, the inputs of the position whose terms are built, and for each position
/// a mark: the number that it has among these inputs, if it is one of them. So an input's number is
/// found in constant time.
#[derive(Drop)]
pub(crate) struct Pool {
    pub(crate) slots: Vec<Term>,
    pub(crate) inputs: Vec<PosId>,
    pub(crate) marks: Vec<u32>,
}

// Whether the input of this number is this position.
fn is_input(inputs: &[PosId], number: u32, p: PosId) -> bool
    ensures { IsTrue result ↔ (slice_get inputs.now number ≡ Some p) }
{
    inputs.get(number as usize) == Some(&p)
}

impl Pool {
    /// Marks each input with its number.
    pub(crate) fn mark(&mut self, inputs: &[PosId])
        requires apart { AreApart inputs.now (length self.old.marks.items) }
        requires fits { length self.old.marks.items < 2 ^ 32 }
        ensures pool { IsRemarked self.old self.new }
        ensures marked { IsMarked inputs.now self.new.marks.items }
    {
        for (number, p) in inputs.iter().enumerate() {
            self.marks[p.0 as usize] = number as u32;
        }
    }

    fn number_of(&mut self, p: PosId) -> Result<u32, NoMemory>
        requires pool { IsPool self.old }
        requires place { p.0 < length self.old.marks.items }
        ensures goes_on { GoesOn self.old self.new }
        ensures slots { self.new.slots.items ≡ self.old.slots.items }
        ensures input { IfOk result (λ number. slice_get self.new.inputs.items number ≡ Some p) }
        ensures names { OnOk result (self.new.inputs.items ≡ with_name self.old.inputs.items p) }
    {
        let mark = self.marks[p.0 as usize];
        if is_input(&self.inputs, mark, p) {
            return Ok(mark);
        }
        let number = self.inputs.len() as u32;
        self.inputs.push(p)?;
        self.marks[p.0 as usize] = number;
        Ok(number)
    }

    fn push(&mut self, slot: Term) -> Result<TermId, NoMemory>
        requires pool { IsPool self.old }
        requires behind { IsBehind (length self.old.slots.items) slot }
        ensures goes_on { GoesOn self.old self.new }
        ensures inputs { self.new.inputs.items ≡ self.old.inputs.items }
        ensures pushed { OnOk result (self.new.slots.items ≡ self.old.slots.items ++ slot ∷ []) }
        ensures last { IfOk result (λ id. id.0 ≡ length self.old.slots.items) }
    {
        let place = self.slots.len();
        self.slots.push(slot)?;
        Ok(TermId(place as u64))
    }

    /// Puts the term and its parts into slots; answers the slot of the whole.
    pub(crate) fn put(&mut self, term: &NewTerm) -> Result<TermId, NoMemory>
        requires pool { IsPool self.old }
        requires over { IsTrue (is_over (length self.old.marks.items) term.now) }
        ensures goes_on { GoesOn self.old self.new }
        ensures has { IfOk result (λ id. Has self.new term.now id.0) }
        ensures names { OnOk result (self.new.inputs.items ≡ with_names self.old.inputs.items (names_of term.now)) }
    {
        match term {
            NewTerm::Const(bits) => {
                let place = self.push(Term::Const(*bits))?;
                Ok(place)
            }
            NewTerm::Word(p) => {
                let input = self.number_of(*p)?;
                let place = self.push(Term::Word(input))?;
                Ok(place)
            }
            NewTerm::And(left, right) => {
                let left = self.put(left.get())?;
                let right = self.put(right.get())?;
                let place = self.push(Term::And(left, right))?;
                Ok(place)
            }
            NewTerm::Or(left, right) => {
                let left = self.put(left.get())?;
                let right = self.put(right.get())?;
                let place = self.push(Term::Or(left, right))?;
                Ok(place)
            }
            NewTerm::Unless { input, bit, then } => {
                let input = self.number_of(*input)?;
                let then = self.put(then.get())?;
                let place = self.push(Term::Unless {
                    input,
                    bit: *bit,
                    then,
                })?;
                Ok(place)
            }
            NewTerm::Shift { bytes, of } => {
                let of = self.put(of.get())?;
                let place = self.push(Term::Shift { bytes: *bytes, of })?;
                Ok(place)
            }
            NewTerm::KeepAlign { step, of } => {
                let of = self.put(of.get())?;
                let place = self.push(Term::KeepAlign { step: *step, of })?;
                Ok(place)
            }
            NewTerm::Spread { bit, to, of } => {
                let of = self.put(of.get())?;
                let place = self.push(Term::Spread {
                    bit: *bit,
                    to: *to,
                    of,
                })?;
                Ok(place)
            }
        }
    }
}
