// The lines of each step. Levels are counted from 1 in what is written.
ghost use Rattle.std.specs.Prelude.{◌<◌};

use crate::error::TraceError;
use alphabets::alphabet::Alphabet;
use blocks::rounding::ExtraBits;
use blocks::words::BlockWords;
use codewords::exhaustive::Decision;
use points::kind::Kind;
use points::pair::Pair;
use std::io;

// The channel by rows, and the received words, each rounded by so many extra bits: with none a word is as it came.
pub fn print_words(
    rt: &impl Print,
    bits: ExtraBits,
    channel: &[i32; 16],
    received: &[i32; 8],
) -> io::Result<()> {
    print_list(rt, "row 1", bits, &channel[0..7])?;
    print_list(rt, "row 2", bits, &channel[7..12])?;
    print_list(rt, "row 3", bits, &channel[12..15])?;
    print_list(rt, "row 4", bits, &channel[15..16])?;
    print_list(rt, "received", bits, received)
}

fn print_list(rt: &impl Print, name: &str, bits: ExtraBits, words: &[i32]) -> io::Result<()> {
    print!(rt; "  {name:<8}")?;
    for word in words {
        let rounded = bits.round(*word);
        print!(rt; "{rounded:>7}")?;
    }
    println!(rt; "")
}

// The levels of a block, from the last to the first. A block is asked for a level by its number, and
// a level for its entries, and neither has a slice of them.
pub fn print_levels(rt: &impl Print, block: &BlockWords) -> io::Result<()> {
    for level in (0..Pair::LEVELS).rev() {
        print_level(rt, block, level)?;
    }
    Ok(())
}

fn print_level(rt: &impl Print, block: &BlockWords, level: usize) -> io::Result<()>
    requires { level < 4 }
{
    let n = level + 1;
    let row = block.row(level);
    let gain = row.gain();
    print!(rt; "  level {n}: r_{n}{n} = {gain}")?;
    for above in n + 1..=Pair::LEVELS {
        let coupling = row.coupling::<Pair>(above - n - 1);
        print!(rt; ", r_{n}{above} = {coupling}")?;
    }
    let received = block.received::<Pair>(level);
    println!(rt; ", z_{n} = {received}")
}

// The codeword, from its last symbol to the first, and its distance.
pub fn print_decision<B: Alphabet<Point = Pair>>(
    rt: &impl Print,
    alphabet: &B,
    decision: &Decision,
) -> Result<(), TraceError> {
    for (level, index) in decision.codeword.as_slice().iter().enumerate().rev() {
        let n = level + 1;
        let point = alphabet.point(*index)?;
        println!(rt; "  s_{n}: index {index:>2}, point {point}")?;
    }
    let distance = decision.distance;
    println!(rt; "  distance {distance}")?;
    Ok(())
}
