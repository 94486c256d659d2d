// A codebook: what a codeword's targets and distance are taken in.
ghost use Rattle.std.specs.Prelude.{◌≡◌, ◌+◌, ◌≤◌, length};
ghost use Rattle.points.specs.Points.{Within, levels};
ghost use Rattle.blocks.specs.Blocks.{block_of};
ghost use Rattle.codewords.specs.Codebooks.{Codebook as CodebookOf};
ghost use Rattle.codewords.specs.Targets.{target_of};

use alphabets::alphabet::{Alphabet, point_or_origin};
use blocks::block::Block;
use blocks::words::BlockWords;
use points::kind::Kind;
use std::marker::Model;

// The codewords of an alphabet, and the block in which they are received.
#[derive(Drop)]
pub struct Codebook<'a, B: Alphabet> {
    pub(crate) alphabet: &'a B,
    pub(crate) block: &'a BlockWords,
}

impl<'a, B: Alphabet> Model for Codebook<'a, B> {
    ghost Value = { CodebookOf };

    ghost view = { λ c. record {
      system = block_of B.Point.Kind.shape c.block.now;
      points = B.points c.alphabet.now;
    } };
}

impl<'a, B: Alphabet> Codebook<'a, B> {
    pub fn new(alphabet: &'a B, block: &'a Block<B::Point>) -> Codebook<'a, B>
        ensures { result ≡ record {
          system = block_of B.Point.Kind.shape block.now.words;
          points = B.points alphabet.now;
        } }
    {
        Codebook {
            alphabet,
            block: block.words(),
        }
    }

    // The target of a level, counted from 0: z_l less the r_lj·s_j of the levels above, whose indices
    // are given from the next level on. How far it reaches is told, since its type serves other values too.
    pub fn target(&self, level: usize, above: &[usize]) -> B::Point
        requires { level + 1 + length above.now ≤ levels B.Point.Kind.shape }
        ensures value { B.Point.Kind.meaning result
            ≡ target_of self.now.system self.now.points level above.now }
        ensures near { Within 1048576 (B.Point.Kind.meaning result) }
    {
        let row = self.block.row(level);
        let mut u = self.block.received::<B::Point>(level);
        for (k, index) in above.iter().enumerate() {
            let entry = row.coupling::<B::Point>(k);
            u = u.minus_product(entry, point_or_origin(self.alphabet, *index));
        }
        u
    }
}
