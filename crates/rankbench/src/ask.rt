// Questions, asked many times.
use crate::draw::Draw;
use crate::error::BenchError;
use alphabets::question::Ranked;
use faults::alphabet::AlphabetFault;
use points::kind::Kind;
use rankings::ranking::whole_ranking;
use std::str::FromStr;

// With nothing asked, only the arguments are drawn: what that costs is taken off.
#[derive(Clone, Copy)]
pub enum Question {
    Nothing,
    First,
    Next,
}

impl FromStr for Question {
    type Err = BenchError;

    fn from_str(word: &str) -> Result<Question, BenchError> {
        match word {
            "nothing" => Ok(Question::Nothing),
            "first" => Ok(Question::First),
            "next" => Ok(Question::Next),
            _ => Err(BenchError::Arguments),
        }
    }
}

// The sum of the answers, where none counts as the size.
pub fn ask<B: Ranked>(question: Question, alphabet: &B, times: u32) -> Result<u64, AlphabetFault> {
    let size = alphabet.size();
    match question {
        Question::Nothing => sum_of(size, times, |_: B::Point, _, index| Ok(index)),
        Question::First => sum_of(size, times, |target, gain, _| alphabet.first(target, gain)),
        Question::Next => sum_of(size, times, |target, gain, index| {
            let next = alphabet.next(target, gain, index)?;
            Ok(next.unwrap_or(size))
        }),
    }
}

// The sum of what a question answers to targets, gains and indices that are drawn.
fn sum_of<K: Kind, F: Fn(K, u32, usize) -> Result<usize, AlphabetFault>>(
    size: usize,
    times: u32,
    question: F,
) -> Result<u64, AlphabetFault>
    requires { F.IsAlwaysCallable question }
{
    let mut draw = Draw::new();
    let mut sum: u64 = 0;
    for _ in 0..times {
        let target = draw.target();
        let gain = draw.gain();
        let answer = question(target, gain, draw.index(size))?;
        sum = sum.wrapping_add(answer as u64);
    }
    Ok(sum)
}

// The sum over whole rankings of each index times its place, counted from 1.
pub fn digest<B: Ranked>(alphabet: &B, rankings: u32) -> Result<u64, AlphabetFault> {
    let mut draw = Draw::new();
    let mut sum: u64 = 0;
    for _ in 0..rankings {
        let target = draw.target::<B::Point>();
        let ranking = whole_ranking(alphabet, target, draw.gain())?;
        for (place, index) in ranking.as_slice().iter().enumerate() {
            let weight = (place as u64).wrapping_add(1);
            sum = sum.wrapping_add(weight.wrapping_mul(*index as u64));
        }
    }
    Ok(sum)
}
