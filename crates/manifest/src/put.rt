ghost use Rattle.std.specs.Prelude.{◌≡◌, ◌++◌, List, map, OnOk};
ghost use Rattle.manifest.specs.Attrs.{Attr};
ghost use Rattle.manifest.specs.Added as spec;
ghost use Rattle.manifest.specs.Added.{Subject, inserted};
ghost use Rattle.manifest.specs.Spelling.{words_of};

use attr_ids::{Insertion, NoMemory, Place, Text};

/// Puts an insertion of these words behind the others, if there are words.
pub(crate) fn put(
    out: &mut Vec<Insertion>,
    at: u32,
    place: Place,
    words: Vec<u8>,
) -> Result<(), NoMemory>
    ensures { (subject : Subject) (attrs : List Attr) → words.items ≡ words_of attrs →
        OnOk result (out.new.items ≡ out.old.items ++ map inserted (spec.put at place subject attrs)) }
{
    if !words.is_empty() {
        out.push(Insertion {
            at,
            place,
            words: Text::from_vec(words),
        })?;
    }
    Ok(())
}
