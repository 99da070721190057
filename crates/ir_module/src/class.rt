ghost use Rattle.std.specs.Prelude.{◌≡◌, ◌<◌, length};
ghost use Rattle.ir_module.specs.Calls as spec;

use crate::module::{Linkage, Module};
use attr_ids::FuncId;

/// What a call of a function runs: code of the outside, code that may be put in the place of the
/// function's own, or exactly the function's own.
#[derive(Clone, Copy, Debug, PartialEq, Eq)]
pub enum Class {
    Declared,
    Replaceable,
    Exact,
}

impl Linkage {
    /// Whether a linker may put another body in the place of one with this linkage.
    pub fn is_replaceable(self) -> bool
        ensures { result ≡ spec.is_replaceable self }
    {
        match self {
            Linkage::Linkonce
            | Linkage::Weak
            | Linkage::LinkonceOdr
            | Linkage::WeakOdr
            | Linkage::AvailableExternally => true,
            Linkage::Plain
            | Linkage::Private
            | Linkage::Internal
            | Linkage::Common
            | Linkage::Appending
            | Linkage::ExternWeak
            | Linkage::External => false,
        }
    }

    /// Whether code outside of the module can name a function or a global with this linkage.
    pub fn is_visible(self) -> bool
        ensures { result ≡ spec.is_visible self }
    {
        !matches!(self, Linkage::Private | Linkage::Internal)
    }
}

/// The class of a function.
pub fn class_of(m: &Module, f: FuncId) -> Class
    requires { f.0 < length m.now.funcs }
    ensures { result ≡ spec.class_of m.now f.0 }
{
    let func = m.func(f);
    if func.block_count == 0 {
        Class::Declared
    } else if func.linkage.is_replaceable() {
        Class::Replaceable
    } else {
        Class::Exact
    }
}
