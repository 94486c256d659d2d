// What a question about rank costs, for PAMs, the grids over them, and tables of the same points.
//
//   rankbench                                      whole rankings, in numbers that are the same on every run
//   rankbench times                                nanoseconds for each question
//   rankbench first|next|nothing ALPHABET SIZE N   one alphabet asked N times, for a profiler
#![tactic(auto)]

use crate::ask::{Question, ask, digest};
use crate::error::BenchError;
use crate::task::{Family, Task};
use alphabets::alphabet::Alphabet;
use alphabets::question::Ranked;
use grids::grid::Grid;
use pams::pam::{Pam, PamSize};
use points::kind::Kind;
use points::pair::Pair;
use points::whole::Whole;
use std::alloc::{AllocError, Global};
use std::rt::Runtime;
use std::time::Instant;
use tables::table::{PairTable, WholeTable};

mod ask;
mod draw;
mod error;
mod task;

const RANKINGS: u32 = 64;

// How often a question is asked to take its time.
const TIMES: u32 = 200_000;

fn main(rt: HostRuntime) -> Result<(), BenchError> {
    run(&rt)
}

fn run(rt: &HostRuntime) -> Result<(), BenchError> {
    let task = task::read_arguments(rt)?;
    for size in &[
        PamSize::Two,
        PamSize::Four,
        PamSize::Eight,
        PamSize::Sixteen,
    ] {
        let pam = Pam::new(*size);
        let grid = Grid::new(pam);
        work(rt, task, Family::Pam, &pam)?;
        work(rt, task, Family::Grid, &grid)?;
        let wholes = points(rt.alloc(), &pam)?;
        let table = WholeTable::try_from(wholes.as_slice())?;
        work(rt, task, Family::WholeTable, &table)?;
        let pairs = points(rt.alloc(), &grid)?;
        let table = PairTable::try_from(pairs.as_slice())?;
        work(rt, task, Family::PairTable, &table)?;
    }
    Ok(())
}

// An alphabet is asked for a point by its index, and has no slice of them.
fn points<B: Alphabet>(heap: Global, alphabet: &B) -> Result<Vec<B::Point>, BenchError> {
    let mut points = Vec::new(heap);
    for index in 0..alphabet.size() {
        points
            .push(alphabet.point(index)?)
            .map_err(AllocError::from)?;
    }
    Ok(points)
}

fn work<B: Ranked>(
    rt: &HostRuntime,
    task: Task,
    family: Family,
    alphabet: &B,
) -> Result<(), BenchError> {
    let points = alphabet.size();
    // what the arguments ask for, once for each alphabet
    match task {
        Task::Digests => {
            let sum = digest(alphabet, RANKINGS)?;
            println!(rt; "{family} {points}: {RANKINGS} rankings, digest {sum}")?;
        }
        Task::Times => {
            let nothing = nanoseconds(rt, Question::Nothing, alphabet)?;
            let first = nanoseconds(rt, Question::First, alphabet)?.saturating_sub(nothing);
            let next = nanoseconds(rt, Question::Next, alphabet)?.saturating_sub(nothing);
            println!(rt; "{family} {points}: first {first} ns, next {next} ns")?;
        }
        Task::Ask {
            question,
            family: wanted,
            size,
            times,
        } => {
            if family == wanted && points == size {
                let sum = ask(question, alphabet, times)?;
                println!(rt; "{family} {points}: sum {sum}")?;
            }
        }
    }
    Ok(())
}

// How long a question takes, with what its arguments take.
fn nanoseconds<B: Ranked>(
    rt: &HostRuntime,
    question: Question,
    alphabet: &B,
) -> Result<u128, BenchError> {
    let start = Instant::now(rt)?;
    let sum = ask(question, alphabet, TIMES)?;
    let elapsed = start.elapsed(rt)?.as_nanos();
    // The sum is looked at, so that the questions are asked: the kit's `black_box` is the identity.
    if sum == u64::MAX {
        return Err(BenchError::Arguments);
    }
    Ok(elapsed / u128::from(TIMES))
}
