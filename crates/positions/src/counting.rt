//! How many positions there are, before any is listed.
ghost use Rattle.std.specs.Prelude.{◌≡◌, ◌+◌, ◌*◌, ◌^◌, ◌<◌, ◌≤◌, if◌then◌else◌, ℕ, length};
ghost use Rattle.ir_module.specs.WellFormed.{HasFew};
ghost use Rattle.facts.specs.Bodies.{body_count, param_count};
ghost use Rattle.positions.specs.Order.{up_to, body_at, value_at, entry_at, entries_at, positions_of};

use crate::module::{is_body, is_pointer_param, is_value_of_body};
use ir_module::Module;
use lattice_words::reach::BODIES;

fn one_if(test: bool) -> u32
    ensures { result ≡ (if test then 1 else 0) }
{
    if test { 1 } else { 0 }
}

/// How many bodies a module has.
pub(crate) fn count_bodies(m: &Module) -> u32
    requires { length m.now.funcs < 2 ^ 31 }
    ensures count { result ≡ length (up_to (body_at m.now) (length m.now.funcs)) }
    ensures number { result ≡ body_count m.now }
    ensures few { result ≤ length m.now.funcs }
{
    let mut count = 0;
    for f in 0..m.funcs.len() as u32 {
        count += one_if(is_body(m, f));
    }
    count
}

/// How many values its bodies have.
fn count_values(m: &Module) -> u32
    requires { length m.now.values < 2 ^ 31 }
    ensures { result ≡ length (up_to (value_at m.now) (length m.now.values)) }
{
    let mut count = 0;
    for v in 0..m.values.len() as u32 {
        count += one_if(is_value_of_body(m, v));
    }
    count
}

/// How many pointers there are among the first `params` parameters of a function.
fn count_params(m: &Module, f: u32, params: u32) -> u32
    ensures count { result ≡ length (up_to (entry_at m.now f) params) }
    ensures few { result ≤ params }
{
    let mut count = 0;
    for at in 0..params {
        count += one_if(is_pointer_param(m, f, at));
    }
    count
}

/// How many pointer parameters a function has, if it is a body.
fn count_entries_of(m: &Module, f: u32) -> u32
    requires function { f < length m.now.funcs }
    requires few_params { param_count m.now f < 256 }
    ensures count { result ≡ length (entries_at m.now f) }
    ensures few { result < 256 }
{
    if is_body(m, f) {
        return count_params(m, f, m.funcs.as_slice()[f as usize].params.len() as u32);
    }
    0
}

/// How many pointer parameters its bodies have.
fn count_entries(m: &Module) -> u64
    requires few { length m.now.funcs < 2 ^ 31 }
    requires few_params { (f : ℕ) → param_count m.now f < 256 }
    ensures count { result ≡ length (up_to (entries_at m.now) (length m.now.funcs)) }
    ensures few { result ≤ 256 * length m.now.funcs }
{
    let mut count = 0;
    for f in 0..m.funcs.len() as u32 {
        count += count_entries_of(m, f) as u64;
    }
    count
}
/// How many positions a module with so many bodies has.
pub(crate) fn count_all(m: &Module, bodies: u32) -> u64
    requires few { HasFew m.now }
    requires few_params { (f : ℕ) → param_count m.now f < 256 }
    requires bodies { bodies ≡ length (up_to (body_at m.now) (length m.now.funcs)) }
    requires number { bodies ≡ body_count m.now }
    requires few_bodies { bodies < 2 ^ 31 }
    ensures { result ≡ length (positions_of m.now) }
{
    let row_words = (bodies + (BODIES - 1)) / BODIES;
    let kinds = 2 * m.segs.len() as u64 + 2 * bodies as u64;
    let parts = count_values(m) as u64 + count_entries(m);
    let rows = (bodies as u64 + 1) * row_words as u64;
    kinds + parts + rows
}
