// Lists of points that passed the check.
ghost use Rattle.std.specs.Prelude.{◌≡◌, ⊤, true, List, [], ◌∷◌, map, is_ok, if◌then◌else◌};
ghost use Rattle.std.specs.Result.{result_map_both};
ghost use Rattle.faults.specs.Refusals.{answer};
ghost use Rattle.points.specs.Points.{origin};
ghost use Rattle.tables.specs.Tables.{table_fault, passes};

use crate::check::check;
use faults::alphabet::AlphabetFault;
use points::kind::{Kind, Origin};
use points::pair::Pair;
use points::whole::Whole;
use std::alloc::AllocError;

// A list of points that someone holds, lent or one's own, and that passed the check.
pub trait PointList {
    type Point: Kind;

    ghost held: { Self → List Self.Point };

    fn as_slice(&self) -> &[Self::Point]
        ensures list { result.now ≡ held self.now }
        ensures kept { passes Self.Point.Kind.shape (map Self.Point.Kind.meaning result.now) ≡ true };
}

// Points that a caller lends.
pub struct Points<'a, K: Kind> {
    points: &'a [K],
    ghost limits: { passes K.shape (map K.meaning points.now) ≡ true },
}

pub type WholePoints<'a> = Points<'a, Whole>;

pub type PairPoints<'a> = Points<'a, Pair>;

impl<'a, K: Origin + 'static> Points<'a, K> {
    // The point 0 alone, until a list is lent.
    pub fn origin() -> Points<'a, K>
        ensures { map K.meaning result.points.now ≡ origin ∷ [] }
    {
        Points {
            points: K::origin_alone(),
        }
    }
}

impl<'a, K: Kind> Points<'a, K> {
    // Takes the list in place of the one that is held; a refusal keeps that.
    pub fn lend(&mut self, points: &'a [K]) -> Result<(), AlphabetFault>
        ensures answer { result ≡ answer (table_fault K.shape (map K.meaning points.now)) tt }
        ensures list { self.new.points.now
            ≡ (if is_ok result then points.now else self.old.points.now) }
    {
        *self = Points::try_from(points)?;
        Ok(())
    }
}

impl<'a, K: Kind> TryFrom<&'a [K]> for Points<'a, K> {
    type Error = AlphabetFault;

    ghost try_from_gives = { λ list r.
        result_map_both (λ l. l.points.now) (λ f. f) r
        ≡ answer (table_fault K.shape (map K.meaning list.now)) list.now };

    fn try_from(points: &'a [K]) -> Result<Points<'a, K>, AlphabetFault> {
        check(points)?;
        Ok(Points { points })
    }
}

// By hand, since a derive is refused over a generic struct with a ghost field.
impl<'a, K: Kind> Clone for Points<'a, K> {
    ghost is_clone = { λ x y. y ≡ x };

    ghost is_infallible = { λ _. ⊤ };

    fn clone(&self) -> Result<Points<'a, K>, AllocError> {
        Ok(*self)
    }
}

impl<'a, K: Kind> Copy for Points<'a, K> {}

impl<'a, K: Kind> PointList for Points<'a, K> {
    type Point = K;

    ghost held = { λ l. l.points.now };

    fn as_slice(&self) -> &[K] {
        self.points
    }
}
