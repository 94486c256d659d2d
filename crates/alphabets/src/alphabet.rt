// What every alphabet answers, by the list of its points.
ghost use Rattle.std.specs.Prelude.{◌≡◌, List, length, slice_index_or};
ghost use Rattle.std.specs.Result.{result_map_both};
ghost use Rattle.points.specs.Points.{Gaussian, Within, origin};
ghost use Rattle.alphabets.specs.Alphabets.{Lawful, point_answer};

use faults::alphabet::AlphabetFault;
use points::kind::Kind;

// A question alters nothing.
pub trait Alphabet {
    type Point: Kind;

    ghost points: { Self → List Gaussian };

    fn size(&self) -> usize
        ensures { result ≡ length (points self.now) };

    fn point(&self, index: usize) -> Result<Self::Point, AlphabetFault>
        ensures { result_map_both Self.Point.Kind.meaning (λ f. f) result ≡ point_answer (points self.now) index };

    ghost lawful: { (a : Self) → Lawful Self.Point.Kind.shape (points a) };
}

// The point at an index, and the origin where the alphabet has none. That it is near is told, since its type serves other values
// too.
pub fn point_or_origin<B: Alphabet>(alphabet: &B, index: usize) -> B::Point
    ensures value { B.Point.Kind.meaning result ≡ slice_index_or (B.points alphabet.now) index origin }
    ensures near { Within 15 (B.Point.Kind.meaning result) }
{
    // A `match`: by `unwrap_or` each codeword that `nearest` looks at took 12 in a hundred more instructions.
    match alphabet.point(index) {
        Ok(point) => point,
        Err(_) => <B::Point as Kind>::from_parts(0, 0),
    }
}
