// A table: an alphabet over a list of points that passed the check.
ghost use Rattle.std.specs.Prelude.{◌≡◌, [], ◌∷◌, map};
ghost use Rattle.std.specs.Result.{result_map_both};
ghost use Rattle.faults.specs.Refusals.{answer};
ghost use Rattle.points.specs.Points.{origin};
ghost use Rattle.tables.specs.Tables.{table_fault, table_points, KeepsPoints};
ghost use Rattle.tables.specs.Lists.{table_lawful};

use crate::least::least_from;
use crate::list::{PairPoints, PointList, Points, WholePoints};
use alphabets::alphabet::Alphabet;
use alphabets::question::{Question, Ranked};
use faults::alphabet::AlphabetFault;
use points::kind::{Kind, Origin};
use ranks::key::{index_of, rank_key};

#[derive(Clone, Copy, Drop)]
pub struct Table<L> {
    list: L,
}

pub type WholeTable<'a> = Table<WholePoints<'a>>;

pub type PairTable<'a> = Table<PairPoints<'a>>;

impl<L> Table<L> {
    // The list has passed its check, so there is nothing to refuse.
    #[tactic(auto, using(crate::specs::Lists::keeps_points))]
    pub fn new(list: L) -> Table<L>
        ensures list { result.list ≡ list }
        ensures points { KeepsPoints }
    {
        Table { list }
    }
}

impl<'a, K: Origin + 'static> Table<Points<'a, K>> {
    // The point 0 alone.
    pub fn origin() -> Table<Points<'a, K>>
        ensures { ⟦<Table<Points<'a, K>> as Alphabet>⟧.points result ≡ origin ∷ [] }
    {
        Table::new(Points::origin())
    }
}

// The table over a lent list, or the list's refusal.
impl<'a, K: Kind> TryFrom<&'a [K]> for Table<Points<'a, K>> {
    type Error = AlphabetFault;

    ghost try_from_gives = { λ list r.
        (result_map_both (λ t. t.list.points.now) (λ f. f) r
        ≡ answer (table_fault K.shape (map K.meaning list.now)) list.now)
        × (result_map_both (λ t. ⟦<Table<Points<'a, K>> as Alphabet>⟧.points t) (λ f. f) r
        ≡ answer (table_fault K.shape (map K.meaning list.now)) (map K.meaning list.now)) };

    fn try_from(points: &'a [K]) -> Result<Table<Points<'a, K>>, AlphabetFault> {
        Ok(Table::new(Points::try_from(points)?))
    }
}

impl<L: PointList> Alphabet for Table<L> {
    type Point = L::Point;

    ghost points = { λ t. table_points L.Point.Kind.shape (map L.Point.Kind.meaning (L.held t.list)) };

    ghost lawful = { λ t. table_lawful L.Point.Kind.shape L.Point.Kind.meaning L.Point.Kind.own (L.held t.list) };

    fn size(&self) -> usize {
        self.list.as_slice().len()
    }

    fn point(&self, index: usize) -> Result<L::Point, AlphabetFault> {
        let points = self.list.as_slice();
        points.get(index).copied().ok_or(AlphabetFault::Index)
    }
}

impl<L: PointList> Ranked for Table<L> {
    fn first(&self, target: L::Point, gain: u32) -> Result<usize, AlphabetFault> {
        let question = Question::new(target, gain)?;
        let least = least_from(self.list.as_slice(), &question, 0);
        Ok(index_of(least).unwrap_or(0))
    }

    fn next(
        &self,
        target: L::Point,
        gain: u32,
        index: usize,
    ) -> Result<Option<usize>, AlphabetFault> {
        let question = Question::new(target, gain)?;
        let points = self.list.as_slice();
        if index >= points.len() {
            return Err(AlphabetFault::Index);
        }
        let floor = rank_key(question.amount(points[index]), index) + 1;
        Ok(index_of(least_from(points, &question, floor)))
    }
}
