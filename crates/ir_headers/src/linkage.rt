//! Linkages by their words.
ghost use Rattle.std.specs.Prelude.{◌≡◌};
ghost use Rattle.ir_module.specs.declared.module.Linkage.TheVariants.{External};
ghost use Rattle.ir_instrs.specs.Words.{found, entries};
ghost use Rattle.ir_headers.specs.Leaves as spec;

use crate::leaves::leaf_text;
use ir_module::Linkage;
use ir_token::Token;
use ir_tree::Leaf;

/// The words of linkages (LangRef, "Linkage Types"). The grammar has one besides those of the table, `external`.
pub const LINKAGE_WORDS: &[(&[u8], Linkage)] = &[
    (b"private", Linkage::Private),
    (b"internal", Linkage::Internal),
    (b"available_externally", Linkage::AvailableExternally),
    (b"linkonce", Linkage::Linkonce),
    (b"weak", Linkage::Weak),
    (b"common", Linkage::Common),
    (b"appending", Linkage::Appending),
    (b"extern_weak", Linkage::ExternWeak),
    (b"linkonce_odr", Linkage::LinkonceOdr),
    (b"weak_odr", Linkage::WeakOdr),
];

/// What the rows have for a word.
fn linkage_found(rows: &[(&[u8], Linkage)], word: &[u8]) -> Linkage
    ensures { result ≡ found External (entries rows.now) word.now }
{
    let mut rest = rows;
    while let [entry, tail @ ..] = rest {
        if entry.0 == word {
            return entry.1;
        }
        rest = tail;
    }
    Linkage::External
}

/// The linkage that a word writes.
fn linkage_of_word(word: &[u8]) -> Linkage
    ensures { result ≡ spec.linkage_of_word word.now }
{
    linkage_found(LINKAGE_WORDS, word)
}

/// The linkage that a header writes, if it does.
pub(crate) fn linkage_of(text: &[u8], toks: &[Token], at: Option<Leaf>) -> Linkage
    ensures { result ≡ spec.linkage_of text.now toks.now at }
{
    match at {
        Some(at) => linkage_of_word(leaf_text(text, toks, at)),
        None => Linkage::Plain,
    }
}
