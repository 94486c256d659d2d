// Why the program stops early.
ghost use Rattle.std.specs.Prelude.{◌≡◌};
ghost use Rattle.faults.specs.Reports.{load_report, alphabet_report};
ghost use Rattle.goldtrace.specs.declared.error.TraceError.TheVariants.{Refused, Output};

use faults::alphabet::AlphabetFault;
use faults::load::LoadFault;
use faults::report::Report;
use std::io;

#[derive(Debug, Drop)]
pub enum TraceError {
    // the number, place and layer of a refusal
    Refused(Report),
    // the output could not be written
    Output(io::Error),
}

// One for each fault, by hand: a derived `From` has no contract, and one over every fault would overlap with that of `io::Error`.
impl From<LoadFault> for TraceError {
    ghost from_gives = { λ fault r. r ≡ Refused (load_report fault) };

    fn from(fault: LoadFault) -> TraceError {
        TraceError::Refused(Report::from(fault))
    }
}

impl From<AlphabetFault> for TraceError {
    ghost from_gives = { λ fault r. r ≡ Refused (alphabet_report fault) };

    fn from(fault: AlphabetFault) -> TraceError {
        TraceError::Refused(Report::from(fault))
    }
}

impl From<io::Error> for TraceError {
    ghost from_gives = { λ error r. r ≡ Output error };

    fn from(error: io::Error) -> TraceError {
        TraceError::Output(error)
    }
}
