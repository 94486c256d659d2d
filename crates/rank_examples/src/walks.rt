// First and next, against a plain sort of amounts and indices.
use alphabets::alphabet::Alphabet;
use alphabets::question::Ranked;
use grids::grid::Grid;
use pams::pam::{Pam, PamSize};
use points::kind::Kind;
use points::pair::Pair;
use points::whole::Whole;
use rankings::ranking::whole_ranking;
use std::alloc::{AllocError, Global};
use std::process::Abort;
use std::test::Fail;
use tables::list::WholePoints;
use tables::table::{PairTable, Table, WholeTable};

// Both ends of the range, points, middles between points, and what lies beside them.
const TARGETS: [i32; 17] = [
    -1_048_576, -30_706, -30_705, -2047, -41, -20, -10, -1, 0, 1, 7, 10, 20, 21, 4094, 30_705,
    1_048_576,
];

const GAINS: [u32; 6] = [0, 1, 2, 10, 2046, 2047];

const SIZES: [PamSize; 4] = [
    PamSize::Two,
    PamSize::Four,
    PamSize::Eight,
    PamSize::Sixteen,
];

const SCATTERED: [Whole; 6] = [
    Whole { value: 3 },
    Whole { value: -7 },
    Whole { value: 0 },
    Whole { value: 15 },
    Whole { value: -15 },
    Whole { value: 4 },
];

const LONE: [Whole; 1] = [Whole { value: -9 }];

// Four of them are equally far from 0, and two pairs from 1.
const AROUND: [Pair; 7] = [
    Pair { re: 3, im: 4 },
    Pair { re: -4, im: 3 },
    Pair { re: 0, im: 0 },
    Pair { re: 5, im: 0 },
    Pair { re: 0, im: -5 },
    Pair { re: 15, im: -15 },
    Pair { re: 2, im: 0 },
];

fn squared_offset(target: i32, gain: u32, part: i32) -> u64 {
    let scaled = i64::from(gain).wrapping_mul(i64::from(part));
    let offset = i64::from(target).wrapping_sub(scaled).unsigned_abs();
    offset.wrapping_mul(offset)
}

// The amount and the index of each point, sorted. An alphabet is asked for a point by its index, and has no slice of them.
fn sorted<B: Alphabet>(
    heap: Global,
    alphabet: &B,
    target: B::Point,
    gain: u32,
) -> Result<Vec<(u64, usize)>, Fail> {
    let mut order = Vec::new(heap);
    for index in 0..alphabet.size() {
        let point = alphabet.point(index)?;
        let re = squared_offset(target.real(), gain, point.real());
        let im = squared_offset(target.imaginary(), gain, point.imaginary());
        order.push((re.wrapping_add(im), index))?;
    }
    order.sort()?;
    Ok(order)
}

// From the first through every next, and none after the last.
fn check_walk<B: Ranked>(
    rt: &impl Abort,
    heap: Global,
    alphabet: &B,
    target: B::Point,
    gain: u32,
) -> Result<(), Fail> {
    let order = sorted(heap, alphabet, target, gain)?;
    let mut next = Some(alphabet.first(target, gain)?);
    for (_, index) in &order {
        assert_eq!(rt; next, Some(*index));
        next = alphabet.next(target, gain, *index)?;
    }
    assert_eq!(rt; next, None);
    Ok(())
}

// Every gain, and every target with a real and an imaginary part out of the lists; a whole number takes the real part.
fn check_walks<B: Ranked>(
    rt: &impl Abort,
    heap: Global,
    alphabet: &B,
    re: &[i32],
    im: &[i32],
) -> Result<(), Fail> {
    for gain in &GAINS {
        for re in re {
            for im in im {
                let target = <B::Point as Kind>::from_parts(*re, *im);
                check_walk(rt, heap, alphabet, target, *gain)?;
            }
        }
    }
    Ok(())
}

#[test]
fn pams(rt: HostRuntime) -> Result<(), Fail> {
    for size in &SIZES {
        check_walks(&rt, rt.alloc(), &Pam::new(*size), &TARGETS, &[0])?;
    }
    Ok(())
}

#[test]
fn grids(rt: HostRuntime) -> Result<(), Fail> {
    let heap = rt.alloc();
    check_walks(
        &rt,
        heap,
        &Grid::new(Pam::new(PamSize::Two)),
        &TARGETS,
        &TARGETS,
    )?;
    check_walks(
        &rt,
        heap,
        &Grid::new(Pam::new(PamSize::Four)),
        &TARGETS,
        &TARGETS,
    )?;
    let few = [-1_048_576, -7, 0, 10, 4094];
    check_walks(&rt, heap, &Grid::new(Pam::new(PamSize::Eight)), &few, &few)?;
    let fewer = [1_048_576, 0, 21];
    check_walks(
        &rt,
        heap,
        &Grid::new(Pam::new(PamSize::Sixteen)),
        &fewer,
        &fewer,
    )
}

#[test]
fn whole_tables(rt: HostRuntime) -> Result<(), Fail> {
    let mut list = WholePoints::origin();
    check_walks(&rt, rt.alloc(), &Table::new(list), &TARGETS, &[0])?;
    list.lend(&SCATTERED)?;
    check_walks(&rt, rt.alloc(), &Table::new(list), &TARGETS, &[0])?;
    list.lend(&LONE)?;
    check_walks(&rt, rt.alloc(), &Table::new(list), &TARGETS, &[0])
}

#[test]
fn pair_tables(rt: HostRuntime) -> Result<(), Fail> {
    check_walks(&rt, rt.alloc(), &PairTable::origin(), &TARGETS, &TARGETS)?;
    let table = PairTable::try_from(&AROUND as &[Pair])?;
    check_walks(&rt, rt.alloc(), &table, &TARGETS, &TARGETS)
}

#[test]
fn grids_over_tables(rt: HostRuntime) -> Result<(), Fail> {
    let table = WholeTable::try_from(&SCATTERED as &[Whole])?;
    check_walks(&rt, rt.alloc(), &Grid::new(table), &TARGETS, &TARGETS)?;
    let table = WholeTable::try_from(&LONE as &[Whole])?;
    check_walks(&rt, rt.alloc(), &Grid::new(table), &TARGETS, &TARGETS)
}

// Targets, gains, and the ranks of a PAM of size 4.
const FOUR: [(i32, u32, [usize; 4]); 6] = [
    (0, 10, [1, 2, 0, 3]),
    (20, 10, [2, 3, 1, 0]),
    (7, 0, [0, 1, 2, 3]),
    (-20, 10, [0, 1, 2, 3]),
    (1_048_576, 2047, [3, 2, 1, 0]),
    (1, 10, [2, 1, 3, 0]),
];

#[test]
fn ranks_of_a_pam(rt: HostRuntime) -> Result<(), Fail> {
    let pam = Pam::new(PamSize::Four);
    for (target, gain, ranks) in &FOUR {
        let ranking = whole_ranking(&pam, Whole { value: *target }, *gain)?;
        assert_eq!(rt; ranking.as_slice(), ranks.as_slice());
    }
    Ok(())
}
