// The target of a level, for who holds a block's plain words.
ghost use Rattle.std.specs.Prelude.{◌≡◌, ◌+◌, ◌≤◌, length};
ghost use Rattle.points.specs.Points.{Within, levels};
ghost use Rattle.blocks.specs.Blocks.{block_of};
ghost use Rattle.codewords.specs.Targets.{target_of};

use crate::codebook::Codebook;
use alphabets::alphabet::Alphabet;
use blocks::words::BlockWords;

// As `Codebook::target`, of words that are read as those of the alphabet's kind of point. A distance and the nearest codeword are
// asked of a codebook alone, whose block was loaded for that kind.
pub fn target<B: Alphabet>(
    alphabet: &B,
    block: &BlockWords,
    level: usize,
    above: &[usize],
) -> B::Point
    requires { level + 1 + length above.now ≤ levels B.Point.Kind.shape }
    ensures value { B.Point.Kind.meaning result
        ≡ target_of (block_of B.Point.Kind.shape block.now) (B.points alphabet.now) level above.now }
    ensures near { Within 1048576 (B.Point.Kind.meaning result) }
{
    Codebook { alphabet, block }.target(level, above)
}
