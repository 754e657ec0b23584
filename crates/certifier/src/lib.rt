// What certify does: the certificate of all that a source gives is printed to a sink, and the exit status that tells of it.
#![tactic(auto)]

mod exit;
mod printing;

pub use exit::status;
pub use printing::{Failure, certify};
