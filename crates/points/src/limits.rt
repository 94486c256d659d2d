// What a list of points and a target must keep.
ghost use Rattle.std.specs.Prelude.{◌≡◌, Decides};
ghost use Rattle.points.specs.Points.{within, size_limit};

use crate::kind::Kind;

const MOST_WHOLE: usize = 16;

const MOST_PAIRS: usize = 256;

// How many points an alphabet of this kind has at most. No member of `Kind`, and neither is `is_same`: a kind is asked for no more
// than its parts.
pub fn most_points<K: Kind>() -> usize
    ensures { result ≡ size_limit K.shape }
{
    if K::PARTS == 1 {
        MOST_WHOLE
    } else {
        MOST_PAIRS
    }
}

// Whether no part is larger than the bound, whatever its sign.
pub fn is_within<K: Kind>(value: K, bound: u32) -> bool
    ensures { result ≡ within bound (K.meaning value) }
{
    bound >= value.real().unsigned_abs() && bound >= value.imaginary().unsigned_abs()
}

pub fn is_same<K: Kind>(value: K, other: K) -> bool
    ensures { Decides result (value ≡ other) }
{
    other.real() == value.real() && other.imaginary() == value.imaginary()
}
