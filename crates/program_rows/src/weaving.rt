ghost use Rattle.std.specs.Prelude.{◌≤◌, All, IsTrue, length};
ghost use Rattle.weave.specs.Woven.{OffsetsRise};

use crate::fields::{Fields, bytes, number, shown};
use attr_ids::{Insertion, Insertions, Place, Text};
use std::alloc::Global;
use std::io;
use weave::weave;

/// Whether the offsets rise and stay within the text.
fn is_fit(text: &[u8], insertions: &[Insertion]) -> bool
    ensures rising { IsTrue result → OffsetsRise insertions.now }
    ensures within { IsTrue result → All (λ insertion. insertion.at ≤ length text.now) insertions.now }
{
    let mut last = 0;
    for insertion in insertions {
        if insertion.at < last || insertion.at as usize > text.len() {
            return false;
        }
        last = insertion.at;
    }
    true
}

/// A place before which words stand, or one behind which they do.
fn place_of(word: &str) -> Place {
    if word == "before" {
        Place::Return
    } else {
        Place::Function
    }
}

/// The insertions of a field, as `7 before nonnull, 62 behind nounwind`.
fn table(alloc: Global, field: &str) -> io::Result<Insertions> {
    let mut insertions = Vec::new(alloc);
    for entry in field.split(", ") {
        let Some((at, rest)) = entry.split_once(' ') else {
            continue;
        };
        let Some((place, words)) = rest.split_once(' ') else {
            continue;
        };
        insertions.push(Insertion {
            at: number(at).min(1000) as u32,
            place: place_of(place),
            words: Text::from_vec(bytes(alloc, words)?),
        })?;
    }
    Ok(Insertions::from_vec(insertions))
}

/// `weave|INSERTIONS|TEXT`
pub fn weave_row(rt: &impl Print, alloc: Global, mut row: Fields) -> io::Result<()> {
    let insertions = table(alloc, row.next_field())?;
    let text = row.text(alloc)?;
    if !is_fit(text.as_slice(), insertions.as_slice()) {
        return println!(rt; "not fit");
    }
    match weave(alloc, text.as_slice(), &insertions) {
        Ok(woven) => println!(rt; "{}", shown(alloc, woven.as_slice())?),
        Err(_) => println!(rt; "no memory"),
    }
}
