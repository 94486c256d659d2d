// The nearest codeword by looking at every codeword: the reference for the decoders.
ghost use Rattle.std.specs.Prelude.{◌≡◌, ◌^◌, ◌<◌, ◌≤◌, length};
ghost use Rattle.points.specs.Points.{levels};
ghost use Rattle.blocks.specs.Refusals.{load_fault, rounded_system};
ghost use Rattle.alphabets.specs.Lists.{list_of};
ghost use Rattle.codewords.specs.Distances.{distance_of};
ghost use Rattle.codewords.specs.Numbers.{numbered};
ghost use Rattle.codewords.specs.Nearest.{Nearest, Settled, Decided};

use crate::codebook::Codebook;
use crate::codeword::{Codeword, codeword_numbered};
use alphabets::alphabet::Alphabet;
use blocks::block::Block;
use faults::load::LoadFault;
use points::kind::Kind;

#[derive(Clone, Copy, PartialEq, Eq, Debug)]
pub struct Decision {
    pub codeword: Codeword,
    pub distance: u64,
}

// From raw words, in the three arguments of a load, to the nearest codeword of the block that they make; or the first refusal.
pub fn decide<B: Alphabet>(
    alphabet: &B,
    extra_bits: u8,
    channel: &[i32],
    received: &[i32],
) -> Result<Decision, LoadFault>
    ensures { Decided (load_fault B.Point.Kind.shape extra_bits channel.now received.now) result
        (λ d. Nearest (rounded_system B.Point.Kind.shape extra_bits channel.now received.now)
        (B.points alphabet.now) (levels B.Point.Kind.shape) (list_of d.codeword) d.distance) }
{
    let block = Block::<B::Point>::load(extra_bits, channel, received)?;
    Ok(Codebook::new(alphabet, &block).nearest())
}

// How many codewords there are.
pub fn codeword_count<B: Alphabet>(alphabet: &B) -> usize
    ensures value { result ≡ length (B.points alphabet.now) ^ levels B.Point.Kind.shape }
    ensures bound { result ≤ 2 ^ 32 }
{
    alphabet.size().pow(<B::Point as Kind>::LEVELS as u32)
}

impl<'a, B: Alphabet> Codebook<'a, B> {
    // The nearest codeword, the earlier one among equals. Codewords go by number, and there is no list of them.
    pub fn nearest(&self) -> Decision
        ensures nearest { Nearest self.now.system self.now.points (levels B.Point.Kind.shape)
            (list_of result.codeword) result.distance }
        ensures settled { Settled }
    {
        let size = self.alphabet.size();
        let mut best = self.decision(size, 0);
        for number in 1..codeword_count(self.alphabet) {
            let decision = self.decision(size, number);
            if decision.distance < best.distance {
                best = decision;
            }
        }
        best
    }

    // The codeword of this number, and its distance. The size is handed in, so that an alphabet that takes long to tell it is not
    // asked for each codeword.
    #[inline(always)]
    fn decision(&self, size: usize, number: usize) -> Decision
        requires size { size ≡ length self.now.points }
        requires some { 0 < size }
        ensures codeword { list_of result.codeword
            ≡ numbered (length self.now.points) (levels B.Point.Kind.shape) number }
        ensures distance { result.distance
            ≡ distance_of self.now.system self.now.points (list_of result.codeword) }
        ensures bound { result.distance < 2 ^ 40 }
    {
        let codeword = codeword_numbered(size, <B::Point as Kind>::LEVELS, number);
        let distance = self.word_distance(codeword.as_slice());
        Decision { codeword, distance }
    }
}
