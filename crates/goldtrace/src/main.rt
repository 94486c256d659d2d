// One block of the golden code, from its raw words to the nearest codeword.
#![tactic(auto)]

use crate::error::TraceError;
use crate::sample::{CHANNEL, EXTRA_BITS, RECEIVED, SIDE};
use alphabets::alphabet::Alphabet;
use blocks::block::Block;
use blocks::rounding::ExtraBits;
use codewords::exhaustive::{codeword_count, decide};
use grids::grid::Grid;
use pams::pam::{Pam, PamSize};
use points::pair::Pair;

mod error;
mod sample;
mod trace;

fn main(rt: HostRuntime) -> Result<(), TraceError> {
    run(&rt)
}

fn run(rt: &impl Print) -> Result<(), TraceError> {
    println!(rt; "Raw words, with {EXTRA_BITS} extra bits")?;
    trace::print_words(rt, ExtraBits::try_from(0)?, &CHANNEL, &RECEIVED)?;
    println!(rt; "\nWords after rounding")?;
    trace::print_words(rt, ExtraBits::try_from(EXTRA_BITS)?, &CHANNEL, &RECEIVED)?;
    let block = Block::<Pair>::load(EXTRA_BITS, &CHANNEL, &RECEIVED)?;
    println!(rt; "\nLevels: gain, couplings to the levels above, received value")?;
    trace::print_levels(rt, block.words())?;
    let alphabet = Grid::new(Pam::new(PamSize::try_from(SIDE)?));
    let codewords = codeword_count(&alphabet);
    println!(rt; "\nNearest of {codewords} codewords")?;
    let decision = decide(&alphabet, EXTRA_BITS, &CHANNEL, &RECEIVED)?;
    trace::print_decision(rt, &alphabet, &decision)
}
