// Why the program stops early.
use faults::alphabet::AlphabetFault;
use std::alloc::AllocError;
use std::io;
use std::num::ParseIntError;

#[derive(Debug, Drop)]
pub enum BenchError {
    Refused(AlphabetFault),
    Memory,
    Output(io::Error),
    // arguments other than those that the program's first lines name
    Arguments,
}

// By hand, since two of these forget what they are made of, which a derived `From` keeps.
impl From<AlphabetFault> for BenchError {
    fn from(fault: AlphabetFault) -> BenchError {
        BenchError::Refused(fault)
    }
}

impl From<AllocError> for BenchError {
    fn from(_error: AllocError) -> BenchError {
        BenchError::Memory
    }
}

impl From<io::Error> for BenchError {
    fn from(error: io::Error) -> BenchError {
        BenchError::Output(error)
    }
}

impl From<ParseIntError> for BenchError {
    fn from(_error: ParseIntError) -> BenchError {
        BenchError::Arguments
    }
}
