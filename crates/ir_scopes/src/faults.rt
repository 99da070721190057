//! Faults of names: a name that has no definition, one that has two, and a data layout that is not this project's.
ghost use Rattle.std.specs.Prelude.{◌≡◌};
ghost use Rattle.ir_scopes.specs.Faults as spec;
ghost use Rattle.ir_scopes.specs.Faults.{first_in, fault_unless};

use ir_tree::Leaf;

/// Why a name is refused.
#[derive(Clone, Copy, PartialEq, Eq)]
pub enum Cause {
    /// A use has no definition of its kind.
    Unknown,
    /// A name is defined a second time.
    Twice,
    /// The data layout is not one that the project reads.
    Layout,
}

/// A fault, and the number of the token at which it stands.
#[derive(Clone, Copy, PartialEq, Eq)]
pub struct NameFault {
    pub cause: Cause,
    pub at: Leaf,
}

/// Of the fault that was found and another one, the one that stands first in the text.
pub fn lesser(found: Option<NameFault>, fault: NameFault) -> Option<NameFault>
    ensures { result ≡ spec.lesser found fault }
{
    match found {
        Some(old) if old.at <= fault.at => Some(old),
        _ => Some(fault),
    }
}

/// Notes the fault at a token, unless all is well there.
pub fn note_unless(found: &mut Option<NameFault>, well: bool, cause: Cause, at: Leaf)
    ensures { found.new ≡ first_in found.old (fault_unless well cause at) }
{
    if !well {
        *found = lesser(*found, NameFault { cause, at });
    }
}
