ghost use Rattle.std.specs.Prelude.{◌≡◌, ◌<◌, ◌≤◌, ◌↔◌, ℕ, IsTrue, IfOk, Err, length, slice_get, Some};
ghost use Rattle.facts.specs.declared.pos.Pos.TheVariants as pos;
ghost use Rattle.ir_module.specs.WellFormed.{HasFew};
ghost use Rattle.facts.specs.Bodies.{param_count};
ghost use Rattle.positions.specs.declared.refusal.PosRefusal.TheVariants as refused;
ghost use Rattle.positions.specs.Order.{positions_of};
ghost use Rattle.positions.specs.Listed.{ArePositions};
ghost use Rattle.positions.specs.Numbering.{IsListed, AreOf, IsEntryBefore};

use crate::counting::{count_all, count_bodies};
use crate::masks::masks_of;
use crate::refusal::PosRefusal;
use crate::tables::Tables;
use crate::whole::listed;
use attr_ids::{FuncId, PosId};
use facts::Pos;
use ir_module::Module;
use ir_uses::Uses;
use std::alloc::Global;
use std::marker::Model;

/// How many positions a module may have.
pub const WORD_LIMIT: u64 = 4_000_000;

/// The positions of a module, numbered kind by kind, each kind in module order, with the mask of each.
#[derive(Drop)]
pub struct Positions {
    pub(crate) list: Vec<Pos>,
    pub(crate) masks: Vec<u64>,
    pub(crate) tables: Tables,
}

impl Model for Positions {
    ghost use Rattle.std.specs.Prelude.{◌≡◌, ◌≤◌, length};
    ghost use Rattle.positions.specs.Numbering.{Numbered, AreFound};
    ghost use Rattle.positions.specs.declared.positions.TheConstants.{WORD_LIMIT};

    ghost Value = { Numbered };

    ghost view = { λ ps. record { list = ps.list.items; masks = ps.masks.items } };

    ghost invariant = { λ ps. (length ps.list.items ≤ WORD_LIMIT) × (length ps.masks.items ≡ length ps.list.items) × AreFound ps.tables ps.list.items };
}

impl Positions {
    /// The positions of a module of which no function has more than 255 parameters. `_u` are its use lists; no number and
    /// no mask depends on them.
    pub fn of(alloc: Global, m: &Module, _u: &Uses) -> Result<Positions, PosRefusal>
        requires few { HasFew m.now }
        requires few_params { (f : ℕ) → param_count m.now f < 256 }
        ensures ok { IfOk result (λ ps. AreOf m.now ps) }
        ensures positions { IfOk result (λ ps. ArePositions m.now ps.list) }
        ensures few { IfOk result (λ ps. length ps.list ≤ WORD_LIMIT) }
        ensures too_many { (words : ℕ) → (result ≡ Err (refused.TooMany words)) ↔ ((words ≡ length (positions_of m.now)) × (WORD_LIMIT < words)) }
    {
        let bodies = count_bodies(m);
        let words = count_all(m, bodies);
        if words > WORD_LIMIT {
            return Err(PosRefusal::TooMany { words });
        }
        let listing = listed(alloc, m, bodies, words as usize)?;
        let masks = masks_of(alloc, m, bodies, listing.list.as_slice())?;
        Ok(Positions {
            list: listing.list,
            masks,
            tables: listing.tables,
        })
    }

    /// How many positions there are.
    pub fn count(&self) -> u32
        ensures { result ≡ length self.now.list }
    {
        self.list.len() as u32
    }

    /// The position of this number.
    pub fn pos(&self, p: PosId) -> Pos
        requires { p.0 < length self.now.list }
        ensures { slice_get self.now.list p.0 ≡ Some result }
    {
        self.list[p.0 as usize]
    }

    /// The bits of its word.
    pub fn mask(&self, p: PosId) -> u64
        requires { p.0 < length self.now.list }
        ensures { slice_get self.now.masks p.0 ≡ Some result }
    {
        self.masks[p.0 as usize]
    }

    /// The number of a position of the module.
    pub fn number(&self, p: Pos) -> PosId
        requires { IsListed self.now p }
        ensures { slice_get self.now.list result.0 ≡ Some p }
    {
        match p {
            Pos::Segment(s) => PosId(s.0),
            Pos::Function(f) => PosId(self.tables.functions[f.0 as usize]),
            Pos::Value(v) => PosId(self.tables.values[v.0 as usize]),
            Pos::Entry(f, at) => self.entry(f, at),
            Pos::Return(f) => PosId(self.tables.functions[f.0 as usize] + self.tables.to_returns),
            Pos::Reach(row, k) => {
                PosId(self.tables.first_row + (row * self.tables.row_words + k))
            }
            Pos::Effect(s) => PosId(self.tables.first_effect + s.0),
        }
    }

    // The entries of a body stand side by side, by rising parameter: the one that is looked for stands behind the first
    // of them at most as far as its parameter does. At most eight places are looked at.
    fn entry(&self, f: FuncId, at: u8) -> PosId
        requires { IsListed self.now (pos.Entry f at) }
        ensures { slice_get self.now.list result.0 ≡ Some (pos.Entry f at) }
    {
        let mut from = self.tables.entries[f.0 as usize];
        let last = self.list.len() as u32 - 1;
        let mut to = (from + at as u32).min(last);
        'halves: while from < to {
            let middle = from + (to - from) / 2;
            if is_entry_before(self.list[middle as usize], f, at) {
                from = middle + 1;
            } else {
                to = middle;
            }
        }
        PosId(from)
    }
}

/// Whether the position is an entry of the body for a parameter before `at`.
fn is_entry_before(p: Pos, f: FuncId, at: u8) -> bool
    ensures yes { IsTrue result → IsEntryBefore f at p }
    ensures no { (less : ℕ) → less < at → p ≡ pos.Entry f less → IsTrue result }
{
    match p {
        Pos::Entry(g, k) => g == f && k < at,
        _ => false,
    }
}
