// What the arguments ask for.
use crate::ask::Question;
use crate::error::BenchError;
use std::rt::Runtime;
use std::str::FromStr;
use std::{env, fmt};

// Alphabets that differ in size alone.
#[derive(Clone, Copy, PartialEq, Eq)]
pub enum Family {
    Pam,
    Grid,
    WholeTable,
    PairTable,
}

impl fmt::Display for Family {
    fn fmt<W: fmt::Write>(&self, f: &mut fmt::Formatter<W>) -> fmt::Result {
        f.write_str(match self {
            Family::Pam => "pam",
            Family::Grid => "grid",
            Family::WholeTable => "whole-table",
            Family::PairTable => "pair-table",
        })
    }
}

impl FromStr for Family {
    type Err = BenchError;

    fn from_str(word: &str) -> Result<Family, BenchError> {
        match word {
            "pam" => Ok(Family::Pam),
            "grid" => Ok(Family::Grid),
            "whole-table" => Ok(Family::WholeTable),
            "pair-table" => Ok(Family::PairTable),
            _ => Err(BenchError::Arguments),
        }
    }
}

#[derive(Clone, Copy)]
pub enum Task {
    Digests,
    Times,
    Ask {
        question: Question,
        family: Family,
        size: usize,
        times: u32,
    },
}

pub fn read_arguments(rt: &impl Runtime) -> Result<Task, BenchError> {
    let mut args = env::args(rt)?;
    let _program = args.next();
    let Some(word) = args.next() else {
        return Ok(Task::Digests);
    };
    if word.as_str() == "times" {
        return Ok(Task::Times);
    }
    let (Some(family), Some(size), Some(times)) = (args.next(), args.next(), args.next()) else {
        return Err(BenchError::Arguments);
    };
    Ok(Task::Ask {
        question: word.as_str().parse()?,
        family: family.as_str().parse()?,
        size: size.as_str().parse()?,
        times: times.as_str().parse()?,
    })
}
