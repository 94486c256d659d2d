// The points of a grid weighed by their parts: an amount is the sum of one for each side.
ghost use Rattle.std.specs.Prelude.{◌≡◌, ℕ, ◌+◌, ◌*◌, ◌^◌, ◌<◌, ◌≤◌, List, length, slice_index};
ghost use Rattle.points.specs.Points.{real};
ghost use Rattle.ranks.specs.Ranks.{next_in};
ghost use Rattle.ranks.specs.Keys.{Least};
ghost use Rattle.alphabets.specs.Questions.{amounts as amounts_of};
ghost use Rattle.grids.specs.Grids.{sums, Sides};

use alphabets::alphabet::{Alphabet, point_or_origin};
use alphabets::question::Question;
use points::whole::Whole;
use ranks::key::{NO_KEY, index_of, lesser, rank_key};

// Writes the amounts of a side's points, around the real and around the imaginary part. Each point is asked for once, however long
// the side takes to tell it.
pub fn weigh<P: Alphabet<Point = Whole>>(
    side: &P,
    re: &Question<Whole>,
    im: &Question<Whole>,
    rows: &mut [u64],
    columns: &mut [u64],
)
    requires rows { length rows.old ≡ length (P.Alphabet.points side.now) }
    requires columns { length columns.old ≡ length (P.Alphabet.points side.now) }
    ensures rows { rows.new ≡ amounts_of (P.Alphabet.points side.now) (real re.now.target.value) re.now.gain }
    ensures columns { columns.new ≡ amounts_of (P.Alphabet.points side.now) (real im.now.target.value) im.now.gain }
{
    for (index, row) in rows.iter_mut().enumerate() {
        let point = point_or_origin(side, index);
        *row = re.amount(point);
        columns[index] = im.amount(point);
    }
}

// The index that follows in rank among the sums.
pub fn next_sum(re: &[u64], im: &[u64], index: usize) -> Option<usize>
    requires sides { Sides re.now im.now }
    requires index { index < length re.now * length im.now }
    ensures { result ≡ next_in (sums re.now im.now) index }
{
    let here = re[index / im.len()] + im[index % im.len()];
    index_of(least_key(re, im, rank_key(here, index) + 1))
}

// The least key from the floor on, of the sums.
fn least_key(re: &[u64], im: &[u64], floor: u64) -> u64
    requires { Sides re.now im.now }
    ensures { Least (sums re.now im.now) floor (length re.now * length im.now) result }
{
    let mut least = NO_KEY;
    for (row, amount) in re.iter().enumerate() {
        least = least_in_row(*amount, row * im.len(), im, floor, least);
    }
    least
}

// The same with one row more, which begins at the index `start`. A table weighs points in a loop of its own.
fn least_in_row(row: u64, start: usize, im: &[u64], floor: u64, least: u64) -> u64
    requires index { start + length im.now ≤ 256 }
    requires amounts { (j : ℕ) → j < length im.now → row + slice_index im.now j < 2 ^ 42 }
    ensures { (ws : List ℕ) → ((j : ℕ) → j < length im.now → slice_index ws (start + j) ≡ row + slice_index im.now j) → Least ws floor start least → Least ws floor (start + length im.now) result }
{
    let mut least = least;
    for (column, amount) in im.iter().enumerate() {
        least = lesser(floor, rank_key(row + amount, start + column), least);
    }
    least
}
