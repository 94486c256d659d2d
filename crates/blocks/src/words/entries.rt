// The entries of a block, by level counted from 0: a level is an index here, below the levels of its kind as of a slice.
// What each entry keeps is told with it, since its type serves other values too.
ghost use Rattle.std.specs.Prelude.{◌≡◌, ℕ, ◌+◌, ◌-◌, ◌<◌, ◌≤◌, [], pos, slice_index_or};
ghost use Rattle.points.specs.Points.{Shape, Within, origin, real, levels};
ghost use Rattle.blocks.specs.Blocks.{row_of, block_of};

use super::{BlockWords, ChannelRow};
use points::kind::Kind;

impl ChannelRow {
    // The diagonal entry.
    pub fn gain(&self) -> u32
        ensures value { (sh : Shape) (n : ℕ) → real (pos result) ≡ slice_index_or (row_of sh n self.now) 0 origin }
        ensures bound { result ≤ 2047 }
    {
        self.gain
    }

    // The entry number `k` right of the diagonal.
    pub fn coupling<K: Kind>(&self, k: usize) -> K
        requires { k + 1 < levels K.shape }
        ensures value { (n : ℕ) → k < n → K.meaning result ≡ slice_index_or (row_of K.shape n self.now) (k + 1) origin }
        ensures near { Within 2048 (K.meaning result) }
    {
        K::read(&self.words, k)
    }
}

impl BlockWords {
    pub fn row(&self, level: usize) -> &ChannelRow
        requires { level < 8 }
        ensures { (sh : Shape) → level < levels sh → row_of sh (levels sh - 1 - level) result.now ≡ slice_index_or (block_of sh self.now).matrix level [] }
    {
        &self.rows[level]
    }

    pub fn received<K: Kind>(&self, level: usize) -> K
        requires { level < levels K.shape }
        ensures value { K.meaning result ≡ slice_index_or (block_of K.shape self.now).received level origin }
        ensures near { Within 32768 (K.meaning result) }
    {
        K::read(&self.received, level)
    }
}
