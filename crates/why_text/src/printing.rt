//! The text of a certificate.
ghost use Rattle.std.specs.Prelude.{◌≡◌, ◌+◌, ◌<◌, ℕ, List, Err, length, IfOk};
ghost use Rattle.positions.specs.Numbering.{AreOf};
ghost use Rattle.why_check.specs.declared.entry.Entry.{Entry as Removed};
ghost use Rattle.why_make.specs.declared.refusal.TheConstants.{MAX_ENTRIES};
ghost use Rattle.why_make.specs.Sweeps.{IsListOfSweeps};
ghost use Rattle.why_text.specs.Certificate.{IsCertificate, NamePositions};
ghost use Rattle.why_text.specs.Lines.{certificate_text};

use crate::checked::certificate;
use crate::lines::{Names, put_last, put_line};
use attr_ids::{NoMemory, Text};
use ir_module::Module;
use positions::Positions;
use rule_terms::System;
use std::alloc::Global;
use why_check::EntryList;
use why_make::WhyRefusal;

/// A line for each entry, in their order: its number from 1, its position and its bits; and a line that says how many there
/// are. A function is named by its token in the text. `p` are the positions that the entries name. The only error is that no
/// memory is left.
pub fn why_text(
    alloc: Global,
    text: &[u8],
    m: &Module,
    p: &Positions,
    entries: &EntryList,
) -> Result<Text, NoMemory>
    requires { NamePositions p.now.list entries.now }
    ensures { IfOk result (λ printed. printed ≡ certificate_text text.now m.now p.now.list entries.now) }
{
    let names = Names { text, m };
    let mut printed = Vec::new(alloc);
    for (k, entry) in entries.as_slice().iter().enumerate() {
        put_line(
            &mut printed,
            &names,
            k as u64 + 1,
            p.pos(entry.p),
            entry.bits,
        )?;
    }
    put_last(&mut printed, entries.len() as u64)?;
    Ok(Text::from_vec(printed))
}

/// The text of the certificate of a system, whose positions are those of the module of the text. The certificate was checked
/// before it is printed.
///
/// # Errors
/// `TooMany` exactly where it has more than `MAX_ENTRIES` entries; `NoMemory` where no memory is left.
pub fn why(
    alloc: Global,
    text: &[u8],
    m: &Module,
    p: &Positions,
    s: &System,
) -> Result<Text, WhyRefusal>
    requires positions { AreOf m.now p.now }
    requires masks { s.now.masks ≡ p.now.masks }
    ensures text { IfOk result (λ printed. (entries : List Removed) × IsCertificate s.now entries
        × (printed ≡ certificate_text text.now m.now p.now.list entries)) }
    ensures too_many { (count : ℕ) → result ≡ Err (WhyRefusal.TooMany count) →
        (count ≡ MAX_ENTRIES + 1) × ((entries : List Removed) → IsListOfSweeps s.now entries → MAX_ENTRIES < length entries) }
{
    let entries = certificate(alloc, s)?;
    let printed = why_text(alloc, text, m, p, &entries)?;
    Ok(printed)
}
