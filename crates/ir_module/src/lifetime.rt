ghost use Rattle.std.specs.Prelude.{◌≡◌};
ghost use Rattle.ir_module.specs.Calls as spec;

use crate::module::Func;

/// The names of the markers of the begin and the end of a lifetime (LangRef, "Memory Use Markers").
pub const LIFETIME_NAMES: [&[u8]; 2] = [b"llvm.lifetime.start.p0", b"llvm.lifetime.end.p0"];

/// Whether a function is the declaration of a lifetime marker.
pub fn is_lifetime(func: &Func) -> bool
    ensures { result ≡ spec.is_lifetime func.now }
{
    let name = func.name.as_slice();
    func.block_count == 0 && (LIFETIME_NAMES[0] == name || LIFETIME_NAMES[1] == name)
}
