// Codewords by the indices of their points, s_1 first.
ghost use Rattle.std.specs.Prelude.{◌≡◌, ◌<◌, ◌≤◌};
ghost use Rattle.alphabets.specs.Lists.{list_of};
ghost use Rattle.codewords.specs.Numbers.{numbered};

use alphabets::indices::Indices;

// An index for each level.
pub type Codeword = Indices<8>;

// The codeword number `number`, in codeword order, over an alphabet of `size` points.
pub(crate) fn codeword_numbered(size: usize, levels: usize, number: usize) -> Codeword
    requires some { 0 < size }
    requires few { levels ≤ 8 }
    ensures { list_of result ≡ numbered size levels number }
{
    let mut word = Codeword::new();
    let mut rest = number;
    for _ in 0..levels {
        word.push(rest % size);
        rest /= size;
    }
    word
}
