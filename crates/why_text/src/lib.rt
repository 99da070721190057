//! What `--emit why` prints. A text, its module and the positions and the system of that module go in; out come the entries of
//! the module's certificate, a line for each, and behind them how many there are. The layer above uses one contract: `why`
//! answers `certificate_text` of the list of entries that sweeps make, which is a complete removal and was checked.
#![tactic(auto)]

mod checked;
mod laws;
mod lines;
mod printing;

pub use checked::certificate;
pub use laws::{a_system_has_one_certificate, certificates_name_positions};
pub use printing::{why, why_text};
