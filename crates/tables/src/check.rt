// What a list of points must keep before a table is made of it.
ghost use Rattle.std.specs.Prelude.{◌≡◌, map};
ghost use Rattle.faults.specs.Refusals.{answer};
ghost use Rattle.tables.specs.Tables.{among, table_fault, AcceptsLawful, TellsFirst};

use faults::alphabet::AlphabetFault;
use points::kind::Kind;
use points::limits::{is_same, is_within, most_points};

// The largest part of a point.
const PART_LIMIT: u32 = 15;

// Whether the point is one of the points: by `is_same`, since a kind need not have `==`, and by a loop, since by `any` a check of
// 256 pairs takes 19 in a hundred more instructions.
fn holds<K: Kind>(points: &[K], point: K) -> bool
    ensures { result ≡ among (K.meaning point) (map K.meaning points.now) }
{
    for other in points {
        if is_same(*other, point) {
            return true;
        }
    }
    false
}

// Refuses a list with too few or too many points, a part out of range, or two equal points.
#[tactic(auto, using(crate::specs::Checks::accepts_lawful, crate::specs::Checks::tells_first))]
pub fn check<K: Kind>(points: &[K]) -> Result<(), AlphabetFault>
    ensures answer { result ≡ answer (table_fault K.shape (map K.meaning points.now)) tt }
    ensures law { AcceptsLawful }
    ensures first { TellsFirst }
{
    if points.is_empty() || points.len() > most_points::<K>() {
        return Err(AlphabetFault::TableSize);
    }
    for (index, point) in points.iter().enumerate() {
        if !is_within(*point, PART_LIMIT) {
            return Err(AlphabetFault::Part { index });
        }
        if holds(&points[..index], *point) {
            return Err(AlphabetFault::Repeated { index });
        }
    }
    Ok(())
}
