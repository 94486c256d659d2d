// The points of PAMs and grids, and what alphabets refuse.
use alphabets::alphabet::Alphabet;
use faults::alphabet::AlphabetFault;
use faults::report::{Layer, Report};
use grids::grid::Grid;
use pams::pam::{Pam, PamSize};
use points::kind::Kind;
use points::pair::Pair;
use points::whole::Whole;
use std::process::Abort;
use std::test::Fail;

const FOUR_BY_FOUR: [(i32, i32); 16] = [
    (-3, -3),
    (-3, -1),
    (-3, 1),
    (-3, 3),
    (-1, -3),
    (-1, -1),
    (-1, 1),
    (-1, 3),
    (1, -3),
    (1, -1),
    (1, 1),
    (1, 3),
    (3, -3),
    (3, -1),
    (3, 1),
    (3, 3),
];

// As in the examples of rank: a library that both would share is longer than this.
fn check_refused<T: Drop>(
    rt: &impl Abort,
    answer: Result<T, AlphabetFault>,
    number: u8,
) -> Result<(), Fail> {
    let Err(fault) = answer else {
        return Err(Fail::new("passed"));
    };
    let layer = Layer::Alphabet;
    assert_eq!(rt;
        Report::from(fault),
        Report {
            number,
            place: 0,
            layer,
        }
    );
    Ok(())
}

// The points of an alphabet, each by both its parts, and none besides.
fn check_points<B: Alphabet>(
    rt: &impl Abort,
    alphabet: &B,
    points: &[(i32, i32)],
) -> Result<(), Fail> {
    assert_eq!(rt; alphabet.size(), points.len());
    for (index, parts) in points.iter().enumerate() {
        let point = alphabet.point(index)?;
        assert_eq!(rt; (point.real(), point.imaginary()), *parts);
    }
    check_refused(rt, alphabet.point(points.len()), 15)
}

#[test]
fn pam_sizes(rt: HostRuntime) -> Result<(), Fail> {
    for size in &[2, 4, 8, 16] {
        assert_eq!(rt; usize::from(PamSize::try_from(*size)?), *size);
    }
    for size in &[0, 1, 3, 5, 6, 7, 9, 15, 17, 32, usize::MAX] {
        check_refused(&rt, PamSize::try_from(*size), 10)?;
    }
    Ok(())
}

#[test]
fn pams(rt: HostRuntime) -> Result<(), Fail> {
    check_points(&rt, &Pam::new(PamSize::Two), &[(-1, 0), (1, 0)])?;
    check_points(
        &rt,
        &Pam::new(PamSize::Four),
        &[(-3, 0), (-1, 0), (1, 0), (3, 0)],
    )?;
    let eight = Pam::new(PamSize::Eight);
    assert_eq!(rt;
        (eight.point(0)?, eight.point(7)?),
        (Whole { value: -7 }, Whole { value: 7 })
    );
    check_refused(&rt, eight.point(8), 15)?;
    let sixteen = Pam::new(PamSize::Sixteen);
    assert_eq!(rt;
        (sixteen.point(0)?, sixteen.point(15)?),
        (Whole { value: -15 }, Whole { value: 15 })
    );
    check_refused(&rt, sixteen.point(16), 15)
}

#[test]
fn grids(rt: HostRuntime) -> Result<(), Fail> {
    check_points(
        &rt,
        &Grid::new(Pam::new(PamSize::Two)),
        &[(-1, -1), (-1, 1), (1, -1), (1, 1)],
    )?;
    check_points(&rt, &Grid::new(Pam::new(PamSize::Four)), &FOUR_BY_FOUR)?;
    let grid = Grid::new(Pam::new(PamSize::Sixteen));
    assert_eq!(rt; grid.point(255)?, Pair { re: 15, im: 15 });
    check_refused(&rt, grid.point(256), 15)
}
