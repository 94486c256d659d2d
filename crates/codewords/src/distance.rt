// The distance of a codeword, level by level.
ghost use Rattle.std.specs.Prelude.{◌≡◌, ◌^◌, ◌<◌, ◌↔◌, length, All, IsTrue, MatchOption};
ghost use Rattle.points.specs.Points.{levels};
ghost use Rattle.codewords.specs.Codewords.{IsCodeword};
ghost use Rattle.codewords.specs.Distances.{distance_of, Reached};

use crate::codebook::Codebook;
use alphabets::alphabet::{Alphabet, point_or_origin};
use points::kind::Kind;

impl<'a, B: Alphabet> Codebook<'a, B> {
    // The distance of a codeword, s_1 first; none where the list is no codeword of the alphabet.
    pub fn distance(&self, word: &[usize]) -> Option<u64>
        ensures { MatchOption result
            (¬ IsCodeword (length self.now.points) (levels B.Point.Kind.shape) word.now)
            (λ d. Reached self.now.system self.now.points (levels B.Point.Kind.shape) word.now d) }
    {
        if word.len() != <B::Point as Kind>::LEVELS || !all_below(word, self.alphabet.size()) {
            return None;
        }
        Some(self.word_distance(word))
    }

    // The sum of the levels' amounts, for as many indices as there are levels.
    pub(crate) fn word_distance(&self, word: &[usize]) -> u64
        requires { length word.now ≡ levels B.Point.Kind.shape }
        ensures value { result ≡ distance_of self.now.system self.now.points word.now }
        ensures bound { result < 2 ^ 40 }
    {
        let mut sum = 0;
        for (level, index) in word.iter().enumerate() {
            let u = self.target(level, &word[level + 1..]);
            let gain = self.block.row(level).gain();
            sum += u.amount(gain, point_or_origin(self.alphabet, *index));
        }
        sum
    }
}

// Whether every index is below the size.
fn all_below(word: &[usize], size: usize) -> bool
    ensures { IsTrue result ↔ All (λ i. i < size) word.now }
{
    word.iter().all(|index| *index < size)
}
