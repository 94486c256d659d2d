// What tables and questions refuse, and which refusal comes first.
use alphabets::alphabet::Alphabet;
use alphabets::question::Ranked;
use faults::alphabet::AlphabetFault;
use faults::report::{Layer, Report};
use grids::grid::Grid;
use pams::pam::{Pam, PamSize};
use points::kind::{Kind, Origin};
use points::pair::Pair;
use points::whole::Whole;
use rankings::ranking::whole_ranking;
use std::alloc::{AllocError, Global};
use std::process::Abort;
use std::test::Fail;
use tables::list::{PointList, Points};
use tables::table::{PairTable, Table, WholeTable};

// A refusal's number and place, if there is one. As in the other examples: a library for both is longer than this.
fn check_answer<T: Drop>(
    rt: &impl Abort,
    answer: Result<T, AlphabetFault>,
    refusal: Option<(u8, usize)>,
) {
    let told = answer.err().map(Report::from);
    let layer = Layer::Alphabet;
    let expected = refusal.map(|(number, place)| Report {
        number,
        place,
        layer,
    });
    assert_eq!(rt; told, expected);
}

// Whole points, and what a table of them is refused with.
const LISTS: [(&[i32], Option<(u8, usize)>); 12] = [
    (&[], Some((11, 0))),
    (&[0; 17], Some((11, 0))),
    (&[99; 17], Some((11, 0))),
    (&[0], None),
    (&[15, -15], None),
    (&[16], Some((12, 0))),
    (&[1, 2, -16], Some((12, 2))),
    (&[1, 1], Some((13, 1))),
    (&[3, 2, 1, 3], Some((13, 3))),
    (&[3, 3, 99], Some((13, 1))),
    (&[3, 99, 3], Some((12, 1))),
    (&[99, 99], Some((12, 0))),
];

// What a list is refused with; a refused list leaves the point 0 alone.
fn check_list<K: Origin + 'static>(rt: &impl Abort, points: &[K], refusal: Option<(u8, usize)>) {
    let mut list = Points::origin();
    check_answer(rt, list.lend(points), refusal);
    let size = if refusal.is_none() { points.len() } else { 1 };
    assert_eq!(rt; list.as_slice().len(), size);
    assert_eq!(rt; Table::new(list).size(), size);
    check_answer(rt, Table::try_from(points), refusal);
}

fn wholes(heap: Global, values: &[i32]) -> Result<Vec<Whole>, AllocError> {
    let mut points = Vec::new(heap);
    for value in values {
        points.push(Whole { value: *value })?;
    }
    Ok(points)
}

#[test]
fn whole_tables(rt: HostRuntime) -> Result<(), Fail> {
    for (values, refusal) in &LISTS {
        check_list(&rt, wholes(rt.alloc(), values)?.as_slice(), *refusal);
    }
    Ok(())
}

// The pair with this number, of 961 different ones.
fn pair(number: usize) -> Pair {
    Pair {
        re: (number % 31) as i32 - 15,
        im: (number / 31 % 31) as i32 - 15,
    }
}

// So many pairs, by number, of which there is no list yet, with the one at some index replaced.
fn pairs(heap: Global, count: usize, index: usize, other: Pair) -> Result<Vec<Pair>, AllocError> {
    let mut points = Vec::new(heap);
    for number in 0..count {
        points.push(if number == index { other } else { pair(number) })?;
    }
    Ok(points)
}

// How many pairs, the index of one that is replaced, by which, and what the table is refused with.
type PairList = (usize, usize, Pair, Option<(u8, usize)>);

const PAIR_LISTS: [PairList; 9] = [
    (0, 0, Pair { re: 0, im: 0 }, Some((11, 0))),
    (257, 0, Pair { re: 0, im: 99 }, Some((11, 0))),
    (256, 256, Pair { re: 0, im: 0 }, None),
    (1, 0, Pair { re: -15, im: 15 }, None),
    (256, 255, Pair { re: -12, im: -15 }, Some((13, 255))),
    (256, 3, Pair { re: 1, im: -16 }, Some((12, 3))),
    (256, 100, Pair { re: 16, im: 0 }, Some((12, 100))),
    (2, 1, Pair { re: -15, im: -15 }, Some((13, 1))),
    (
        2,
        0,
        Pair {
            re: i32::MIN,
            im: 0,
        },
        Some((12, 0)),
    ),
];

#[test]
fn pair_tables(rt: HostRuntime) -> Result<(), Fail> {
    for (count, index, other, refusal) in &PAIR_LISTS {
        check_list(
            &rt,
            pairs(rt.alloc(), *count, *index, *other)?.as_slice(),
            *refusal,
        );
    }
    let first_of_two = [
        Pair { re: 9, im: 9 },
        Pair { re: 9, im: 9 },
        Pair { re: 0, im: 99 },
    ];
    check_list(&rt, &first_of_two, Some((13, 1)));
    Ok(())
}

// The index that `next` is asked about.
#[derive(Clone, Copy)]
enum Asked {
    First,
    PastTheLast,
}

// A target's parts, a gain, an index, and the refusals of first and next.
type Question = (i32, i32, u32, Asked, Option<u8>, Option<u8>);

const QUESTIONS: [Question; 12] = [
    (0, 0, 0, Asked::First, None, None),
    (0, 0, 0, Asked::PastTheLast, None, Some(15)),
    (1_048_576, -1_048_576, 2047, Asked::First, None, None),
    (
        1_048_576,
        -1_048_576,
        2047,
        Asked::PastTheLast,
        None,
        Some(15),
    ),
    (1_048_577, 0, 0, Asked::First, Some(14), Some(14)),
    (-1_048_577, 0, 0, Asked::PastTheLast, Some(14), Some(14)),
    (0, 0, 2048, Asked::First, Some(14), Some(14)),
    (0, 0, u32::MAX, Asked::PastTheLast, Some(14), Some(14)),
    (i32::MIN, 0, 2048, Asked::PastTheLast, Some(14), Some(14)),
    (i32::MAX, 0, 1, Asked::First, Some(14), Some(14)),
    (1_048_577, 1_048_577, 0, Asked::First, Some(14), Some(14)),
    (
        i32::MIN,
        i32::MIN,
        2047,
        Asked::PastTheLast,
        Some(14),
        Some(14),
    ),
];

// A question's refusal names no place.
fn numbered(number: Option<u8>) -> Option<(u8, usize)> {
    number.map(|number| (number, 0))
}

fn check_questions<B: Ranked>(rt: &impl Abort, alphabet: &B) {
    for (re, im, gain, asked, first, next) in &QUESTIONS {
        let target = <B::Point as Kind>::from_parts(*re, *im);
        check_answer(rt, alphabet.first(target, *gain), numbered(*first));
        check_answer(rt, whole_ranking(alphabet, target, *gain), numbered(*first));
        let index = match asked {
            Asked::First => 0,
            Asked::PastTheLast => alphabet.size(),
        };
        check_answer(rt, alphabet.next(target, *gain, index), numbered(*next));
    }
    check_answer(
        rt,
        alphabet.next(<B::Point as Kind>::from_parts(0, 0), 0, usize::MAX),
        Some((15, 0)),
    );
}

#[test]
fn questions(rt: HostRuntime) {
    check_questions(&rt, &Pam::new(PamSize::Two));
    check_questions(&rt, &Pam::new(PamSize::Sixteen));
    check_questions(&rt, &Grid::new(Pam::new(PamSize::Four)));
    check_questions(&rt, &WholeTable::origin());
    check_questions(&rt, &PairTable::origin());
    check_questions(&rt, &Grid::new(WholeTable::origin()));
}

// The imaginary part of a pair's target counts too.
fn check_imaginary<B: Ranked<Point = Pair>>(rt: &impl Abort, alphabet: &B) {
    for im in &[1_048_577, -1_048_577, i32::MIN, i32::MAX] {
        let target = Pair { re: 0, im: *im };
        check_answer(rt, alphabet.first(target, 0), Some((14, 0)));
        check_answer(rt, alphabet.next(target, 0, usize::MAX), Some((14, 0)));
    }
}

#[test]
fn both_parts(rt: HostRuntime) {
    check_imaginary(&rt, &Grid::new(Pam::new(PamSize::Two)));
    check_imaginary(&rt, &PairTable::origin());
}
