// Why a run ends before the file does, and where.
ghost use Rattle.std.specs.Prelude.{◌≡◌, Some};
ghost use Rattle.certificate.specs.Numbers.{number_of, layer_of};
ghost use Rattle.certificate.specs.Texts.{run_words, cause_words};
ghost use Rattle.certificate.specs.declared.fault.Cause.TheVariants.{Trace as TraceCase, Monitor as MonitorCase, Run as RunCase};

use roster::RuleFault;
use std::error::Error;
use std::fmt;
use trace::{Refusal, Site, TraceFault};

// The run's own fault.
#[derive(Clone, Copy, PartialEq, Eq, Debug)]
pub enum RunFault {
    TooManyFindings = 11,
}

// A fault of the file, a refusal by the monitor, or a fault of the run.
#[derive(Clone, Copy, PartialEq, Eq, Debug)]
pub enum Cause {
    Trace(TraceFault),
    Monitor(RuleFault),
    Run(RunFault),
}

// A cause with its site in the file.
#[derive(Clone, Copy, PartialEq, Eq, Debug)]
pub struct Fault {
    pub cause: Cause,
    pub at: Site,
}

impl From<RuleFault> for Cause {
    ghost from_gives = { λ e r. r ≡ MonitorCase e };

    fn from(e: RuleFault) -> Cause {
        Cause::Monitor(e)
    }
}

impl From<RunFault> for Cause {
    ghost from_gives = { λ e r. r ≡ RunCase e };

    fn from(e: RunFault) -> Cause {
        Cause::Run(e)
    }
}

impl From<Refusal> for Fault {
    ghost from_gives = { λ e r. (r.cause ≡ TraceCase e.fault) × (r.at ≡ e.at) };

    fn from(e: Refusal) -> Fault {
        Fault {
            cause: Cause::Trace(e.fault),
            at: e.at,
        }
    }
}

impl Cause {
    // The number of the fault.
    pub fn number(self) -> u8
        ensures { result ≡ number_of self }
    {
        match self {
            Cause::Trace(fault) => fault.number(),
            Cause::Monitor(fault) => fault.number(),
            Cause::Run(fault) => fault as u8,
        }
    }

    // The layer that the fault comes from, by the number that the rules fix: 1 the file, 2 the monitor, 3 the run.
    pub fn layer(self) -> u8
        ensures { result ≡ layer_of self }
    {
        match self {
            Cause::Trace(_) => 1,
            Cause::Monitor(_) => 2,
            Cause::Run(_) => 3,
        }
    }
}

impl fmt::Display for RunFault {
    ghost output = { λ f. Some (run_words f) };

    fn fmt<W: fmt::Write>(&self, f: &mut fmt::Formatter<W>) -> fmt::Result {
        f.write_str(match self {
            RunFault::TooManyFindings => "a thousand findings are listed",
        })
    }
}

impl fmt::Display for Cause {
    ghost output = { λ c. Some (cause_words c) };

    fn fmt<W: fmt::Write>(&self, f: &mut fmt::Formatter<W>) -> fmt::Result {
        match self {
            Cause::Trace(fault) => write!(f, "{fault}"),
            Cause::Monitor(fault) => write!(f, "{fault}"),
            Cause::Run(fault) => write!(f, "{fault}"),
        }
    }
}

impl Error for RunFault {}

impl Error for Cause {}
