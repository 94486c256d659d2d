// What a ranked alphabet answers, by the list of its points, and what a question about rank must keep.
ghost use Rattle.std.specs.Prelude.{◌≡◌, ◌^◌, ◌<◌, true, MatchResult};
ghost use Rattle.points.specs.Points.{Within, amount};
ghost use Rattle.alphabets.specs.Questions.{askable, rank_fault, first_answer, next_answer};

use crate::alphabet::Alphabet;
use faults::alphabet::AlphabetFault;
use points::kind::Kind;
use points::limits::is_within;

// An alphabet that answers which point is nearest to a target, and which follows. A question alters nothing. Its target and
// gain stand apart, as the rules name them, and may be out of range.
pub trait Ranked: Alphabet {
    // The index first in rank.
    fn first(&self, target: Self::Point, gain: u32) -> Result<usize, AlphabetFault>
        ensures { result ≡ first_answer (Self.points self.now) (Self.Point.Kind.meaning target) gain };

    // The index that follows in rank, or none after the last.
    fn next(
        &self,
        target: Self::Point,
        gain: u32,
        index: usize,
    ) -> Result<Option<usize>, AlphabetFault>
        ensures { result ≡ next_answer (Self.points self.now) (Self.Point.Kind.meaning target) gain index };
}

// The largest part of a target.
pub const TARGET_LIMIT: u32 = 1_048_576;

pub const GAIN_LIMIT: u32 = 2047;

// What is asked about rank: a target and a gain within their limits.
#[derive(Drop)]
pub struct Question<K: Kind> {
    pub target: K,
    pub gain: u32,
    ghost asked: { askable (K.meaning target) gain ≡ true },
}

impl<K: Kind> Question<K> {
    // Refuses a target or a gain that is out of range. A name for both: a conversion from a pair of them would say less.
    pub fn new(target: K, gain: u32) -> Result<Question<K>, AlphabetFault>
        ensures { MatchResult result (λ q. (rank_fault (K.meaning target) gain ≡ None) × (q.target ≡ target) × (q.gain ≡ gain)) (λ f. rank_fault (K.meaning target) gain ≡ Some f) }
    {
        if is_within(target, TARGET_LIMIT) && gain <= GAIN_LIMIT {
            Ok(Question { target, gain })
        } else {
            Err(AlphabetFault::TargetOrGain)
        }
    }

    // |u − r·s|², for the target u and the gain r.
    pub fn amount(&self, point: K) -> u64
        requires { Within 15 (K.meaning point) }
        ensures value { result ≡ amount (K.meaning self.now.target) self.now.gain (K.meaning point) }
        ensures bound { result < 2 ^ 42 }
    {
        self.target.amount(self.gain, point)
    }
}
