//! Functions by their headers and global variables (LangRef, "Functions", "Global Variables"), and where the values of a
//! module are made. In go the trees of headers and of globals, and what names, types and constants in them stand for
//! (`Scene`, `ir_consts::Source`); out come a `Func`, whose blocks are counted elsewhere, a `GlobalVar`, and the parts of their
//! constants behind those before them, with the first name that has no definition. The layer above uses that each answer is
//! the value that `specs` defines of the tree: `func_with`, `extras_of`, `global_of`, `param_values`, `results_of`.
#![tactic(auto)]

mod extras;
mod globals;
mod headers;
mod leaves;
mod linkage;
mod params;
mod values;

pub use extras::extras_of;
pub use globals::global_of;
pub use headers::{Standing, func_of};
pub use leaves::leaf_text;
pub use values::{push_params, push_segs};
