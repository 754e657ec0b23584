// From a trace file to a certificate: the run, its text, and the call for C hosts.
#![tactic(auto)]

mod call;
mod certificate;
mod ending;
mod fault;
mod finding;
mod host;
mod line;
mod listing;
mod run;
mod running;
mod text;
mod writing;

pub use call::{CallFault, KeeperKind, Summary};
pub use certificate::{certificate_of, certificates_agree};
pub use ending::Ending;
pub use fault::{Cause, Fault, RunFault};
pub use finding::{Finding, Findings};
pub use host::{certify_into, wickerheron_certify};
pub use run::{Ran, Run};
pub use running::run_file;
pub use text::{Certificate, LONGEST_TEXT, text_of};
