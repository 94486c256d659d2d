// A list of points of one's own: a table and a grid over it, with nothing left to refuse and nothing borrowed.
ghost use Rattle.std.specs.Prelude.{◌≡◌, true, map};
ghost use Rattle.points.specs.Points.{real, whole as whole_shape};
ghost use Rattle.tables.specs.Tables.{passes};
ghost use Rattle.points.specs.declared.whole.Whole.{Whole};

use alphabets::alphabet::Alphabet;
use alphabets::question::Ranked;
use faults::alphabet::AlphabetFault;
use grids::grid::Grid;
use points::pair::Pair;
use points::whole::Whole;
use std::test::Fail;
use tables::check::check;
use tables::list::PointList;
use tables::table::Table;

// Two points, which it owns.
#[derive(Clone, Copy)]
struct Couple {
    points: [Whole; 2],
    ghost limits: { passes whole_shape (map (λ (p : Whole). real p.value) points) ≡ true },
}

impl Couple {
    #[tactic(auto, using(tables::specs::Checks::none_refused, tables::specs::Lists::none_passes))]
    fn new(points: [Whole; 2]) -> Result<Couple, AlphabetFault> {
        check(&points)?;
        Ok(Couple { points })
    }
}

impl PointList for Couple {
    type Point = Whole;

    ghost held = { λ c. c.points };

    fn as_slice(&self) -> &[Whole] {
        &self.points
    }
}

// Nothing that lives shorter is lent.
fn grid_of(couple: Couple) -> Grid<Table<Couple>> {
    Grid::new(Table::new(couple))
}

#[test]
fn a_list_of_ones_own(rt: HostRuntime) -> Result<(), Fail> {
    let couple = Couple::new([Whole { value: 5 }, Whole { value: -3 }])?;
    let table = Table::new(couple);
    assert_eq!(rt; table.size(), 2);
    assert_eq!(rt; table.point(1), Ok(Whole { value: -3 }));
    assert_eq!(rt; table.first(Whole { value: -20 }, 10), Ok(1));
    assert_eq!(rt; table.next(Whole { value: -20 }, 10, 1), Ok(Some(0)));
    let grid = grid_of(couple);
    assert_eq!(rt; grid.point(1), Ok(Pair { re: 5, im: -3 }));
    assert_eq!(rt; grid.first(Pair { re: -20, im: 40 }, 10), Ok(2));
    Ok(())
}
