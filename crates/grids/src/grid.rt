// A grid: every pair of points of a whole alphabet.
ghost use Rattle.std.specs.Prelude.{◌≡◌};
ghost use Rattle.grids.specs.Grids.{grid_points, GridOrder};
ghost use Rattle.grids.specs.GridsLemmas.{grid_lawful};

use crate::weigh::{next_sum, weigh};
use alphabets::alphabet::{Alphabet, point_or_origin};
use alphabets::question::{Question, Ranked};
use faults::alphabet::AlphabetFault;
use points::kind::Kind;
use points::pair::Pair;
use points::whole::Whole;

#[derive(Clone, Copy, Drop)]
pub struct Grid<P> {
    side: P,
}

impl<P> Grid<P> {
    #[tactic(auto, using(crate::specs::GridsLemmas::grid_order))]
    pub fn new(side: P) -> Grid<P>
        ensures side { result.side ≡ side }
        ensures order { GridOrder }
    {
        Grid { side }
    }
}

#[tactic(auto, using(crate::specs::GridsLemmas::grid_size))]
impl<P: Alphabet<Point = Whole>> Alphabet for Grid<P> {
    type Point = Pair;

    ghost points = { λ g. grid_points (P.Alphabet.points g.side) };

    ghost lawful = { λ a. grid_lawful (P.Alphabet.points a.side) (P.Alphabet.lawful a.side) };

    fn size(&self) -> usize {
        let side = self.side.size();
        side * side
    }

    fn point(&self, index: usize) -> Result<Pair, AlphabetFault> {
        let side = self.side.size();
        if index >= side * side {
            return Err(AlphabetFault::Index);
        }
        let re = point_or_origin(&self.side, index / side);
        let im = point_or_origin(&self.side, index % side);
        Ok(Pair {
            re: re.value,
            im: im.value,
        })
    }
}

#[tactic(auto, using(crate::specs::GridsLemmas::grid_size))]
impl<P: Ranked<Point = Whole>> Ranked for Grid<P> {
    fn first(&self, target: Pair, gain: u32) -> Result<usize, AlphabetFault> {
        let re = self.side.first(Whole { value: target.re }, gain)?;
        let im = self.side.first(Whole { value: target.im }, gain)?;
        Ok(re * self.side.size() + im)
    }

    fn next(&self, target: Pair, gain: u32, index: usize) -> Result<Option<usize>, AlphabetFault> {
        let Question { target, gain } = Question::new(target, gain)?;
        let side = self.side.size();
        if side * side <= index {
            return Err(AlphabetFault::Index);
        }
        let re = Question {
            target: Whole { value: target.re },
            gain,
        };
        let im = Question {
            target: Whole { value: target.im },
            gain,
        };
        // Arrays in place: by an `ArrayVec` for each side a question at 4 points takes 404 instructions, by these 183; C takes 172.
        let (mut rows, mut columns) = ([0; 16], [0; 16]);
        weigh(
            &self.side,
            &re,
            &im,
            &mut rows[..side],
            &mut columns[..side],
        );
        Ok(next_sum(&rows[..side], &columns[..side], index))
    }
}
