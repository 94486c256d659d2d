// The least key among points: each is looked at once. A grid adds up amounts in a loop of its own: a closure for either would say
// no less.
ghost use Rattle.std.specs.Prelude.{◌≡◌, map, length};
ghost use Rattle.alphabets.specs.Alphabets.{Lawful};
ghost use Rattle.alphabets.specs.Questions.{amounts};
ghost use Rattle.ranks.specs.Keys.{Least};

use alphabets::question::Question;
use points::kind::Kind;
use ranks::key::{NO_KEY, lesser, rank_key};

// The least key that is not below the floor, or NO_KEY.
pub(crate) fn least_from<K: Kind>(points: &[K], question: &Question<K>, floor: u64) -> u64
    requires { Lawful K.shape (map K.meaning points.now) }
    ensures { Least
        (amounts (map K.meaning points.now) (K.meaning question.now.target) question.now.gain)
        floor (length points.now) result }
{
    let mut least = NO_KEY;
    for (index, point) in points.iter().enumerate() {
        least = lesser(floor, rank_key(question.amount(*point), index), least);
    }
    least
}
