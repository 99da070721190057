ghost use Rattle.std.specs.Prelude.{◌≡◌, ◌<◌, length, slice_get, Some};

use crate::lists::Use;
use attr_ids::{FuncId, Sequence, ValueId};
use ir_module::Spot;
use row_lists::Rows;

/// The use lists of a module.
#[derive(Drop)]
pub struct Uses {
    pub(crate) values: Rows<Use>,
    pub(crate) callers: Rows<Spot>,
    /// For each function, whether it is an open body.
    pub(crate) bodies: Sequence<bool>,
}

impl Uses {
    /// The uses of a value, each once and in text order.
    pub fn of_value(&self, v: ValueId) -> &[Use]
        requires { v.0 < length self.now.values }
        ensures { slice_get self.now.values v.0 ≡ Some result.now }
    {
        self.values.get(v.0 as usize)
    }

    /// Where a function is called directly, each call once and in text order.
    pub fn callers(&self, f: FuncId) -> &[Spot]
        requires { f.0 < length self.now.callers }
        ensures { slice_get self.now.callers f.0 ≡ Some result.now }
    {
        self.callers.get(f.0 as usize)
    }

    /// Whether a function is an open body: it is defined, and it is seen from outside or its address is taken.
    pub fn is_open(&self, f: FuncId) -> bool
        requires { f.0 < length self.now.bodies }
        ensures { slice_get self.now.bodies f.0 ≡ Some result }
    {
        self.bodies.as_slice()[f.0 as usize]
    }
}
