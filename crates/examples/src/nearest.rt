// Nearest codewords and distances. What is expected was computed by hand, or by a program in another language.
use alphabets::alphabet::Alphabet;
use blocks::block::Block;
use codewords::codebook::Codebook;
use codewords::exhaustive::decide;
use grids::grid::Grid;
use pams::pam::{Pam, PamSize};
use points::kind::Kind;
use points::pair::Pair;
use points::whole::Whole;
use std::alloc::{AllocError, Global};
use std::process::Abort;
use std::test::Fail;

// Channels, row by row from the diagonal to the right. In the plain ones no level couples with another.
const PLAIN: [&[i32]; 4] = [
    &[10, 0, 0, 0, 0, 0, 0],
    &[10, 0, 0, 0, 0],
    &[10, 0, 0],
    &[10],
];

const COUPLED: [&[i32]; 4] = [
    &[9, 3, -2, 1, 4, -5, 2],
    &[8, 2, 2, -3, 1],
    &[7, -4, 3],
    &[6],
];

const WHOLE_PLAIN: [&[i32]; 8] = [
    &[1, 0, 0, 0, 0, 0, 0, 0],
    &[1, 0, 0, 0, 0, 0, 0],
    &[1, 0, 0, 0, 0, 0],
    &[1, 0, 0, 0, 0],
    &[1, 0, 0, 0],
    &[1, 0, 0],
    &[1, 0],
    &[1],
];

const WHOLE_COUPLED: [&[i32]; 8] = [
    &[8, 2, 0, -2, 3, 1, -1, -3],
    &[9, 2, 0, -2, 3, 1, -1],
    &[10, -3, 2, 0, -2, 3],
    &[11, 1, -1, -3, 2],
    &[12, 0, -2, 3],
    &[13, 1, -1],
    &[14, -3],
    &[15],
];

// Only s_1 and the last symbol count, by their sum.
const SUM: [&[i32]; 4] = [&[1, 0, 0, 0, 0, 1, 0], &[0; 5], &[0; 3], &[0]];

const WHOLE_SUM: [&[i32]; 8] = [
    &[1, 0, 0, 0, 0, 0, 0, 1],
    &[0; 7],
    &[0; 6],
    &[0; 5],
    &[0; 4],
    &[0; 3],
    &[0; 2],
    &[0],
];

// The channel words of these rows.
fn words(heap: Global, rows: &[&[i32]]) -> Result<Vec<i32>, AllocError> {
    let mut words = Vec::new(heap);
    for row in rows {
        words.extend_from_slice(row)?;
    }
    Ok(words)
}

// The nearest codeword, s_1 first, and its distance.
fn check_nearest<B: Alphabet>(
    rt: &impl Abort,
    heap: Global,
    alphabet: &B,
    rows: &[&[i32]],
    received: &[i32],
    word: &[usize],
    least: u64,
) -> Result<(), Fail> {
    let channel = words(heap, rows)?;
    let block = Block::<B::Point>::load(0, channel.as_slice(), received)?;
    let decision = decide(alphabet, 0, channel.as_slice(), received)?;
    assert_eq!(rt; decision.codeword.as_slice(), word);
    assert_eq!(rt; decision.distance, least);
    assert_eq!(rt; Codebook::new(alphabet, &block).distance(word), Some(least));
    Ok(())
}

#[test]
fn blocks_of_pairs(rt: HostRuntime) -> Result<(), Fail> {
    let heap = rt.alloc();
    let grid = Grid::new(Pam::new(PamSize::Two));
    let here = [10, -10, 10, -10, 10, -10, 10, -10];
    check_nearest(&rt, heap, &grid, &PLAIN, &here, &[2, 2, 2, 2], 0)?;
    let beside = [13, -10, 10, -10, 10, -10, 10, -10];
    check_nearest(&rt, heap, &grid, &PLAIN, &beside, &[2, 2, 2, 2], 9)?;
    let received = [5, -14, -11, 9, 16, -2, -7, 8];
    check_nearest(&rt, heap, &grid, &COUPLED, &received, &[2, 1, 3, 1], 172)?;
    let wider = Grid::new(Pam::new(PamSize::Four));
    check_nearest(&rt, heap, &wider, &COUPLED, &received, &[8, 2, 14, 6], 108)
}

#[test]
fn blocks_of_whole_numbers(rt: HostRuntime) -> Result<(), Fail> {
    let heap = rt.alloc();
    let pam = Pam::new(PamSize::Two);
    check_nearest(&rt, heap, &pam, &WHOLE_PLAIN, &[0; 8], &[0; 8], 8)?;
    let received = [9, -12, 4, 15, -7, -20, 3, 11];
    let word = [1, 0, 1, 1, 0, 0, 1, 1];
    check_nearest(&rt, heap, &pam, &WHOLE_COUPLED, &received, &word, 359)
}

// The order looks at the last symbol first.
#[test]
fn the_earliest_of_equals(rt: HostRuntime) -> Result<(), Fail> {
    let heap = rt.alloc();
    let grid = Grid::new(Pam::new(PamSize::Two));
    check_nearest(&rt, heap, &grid, &[&[0; 16]], &[0; 8], &[0, 0, 0, 0], 0)?;
    check_nearest(&rt, heap, &grid, &SUM, &[0; 8], &[3, 0, 0, 0], 0)?;
    let pam = Pam::new(PamSize::Two);
    check_nearest(
        &rt,
        heap,
        &pam,
        &WHOLE_SUM,
        &[0; 8],
        &[1, 0, 0, 0, 0, 0, 0, 0],
        0,
    )
}

// Lists of indices, and their distances where they are codewords.
const LISTS: [(&[usize], Option<u64>); 9] = [
    (&[2, 2, 2, 2], Some(0)),
    (&[0, 2, 2, 2], Some(400)),
    (&[3, 2, 2, 2], Some(400)),
    (&[2, 2, 2, 1], Some(800)),
    (&[4, 2, 2, 2], None),
    (&[2, 2, 2, 4], None),
    (&[], None),
    (&[2, 2, 2], None),
    (&[2, 2, 2, 2, 2], None),
];

#[test]
fn distances(rt: HostRuntime) -> Result<(), Fail> {
    let grid = Grid::new(Pam::new(PamSize::Two));
    let channel = words(rt.alloc(), &PLAIN)?;
    let block = Block::<Pair>::load(0, channel.as_slice(), &[10, -10, 10, -10, 10, -10, 10, -10])?;
    let codebook = Codebook::new(&grid, &block);
    for (word, expected) in &LISTS {
        assert_eq!(rt; codebook.distance(word), *expected);
    }
    Ok(())
}
