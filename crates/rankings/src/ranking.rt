// All indices of an alphabet, in rank.
ghost use Rattle.std.specs.Prelude.{◌≡◌};
ghost use Rattle.std.specs.Result.{result_map_both};
ghost use Rattle.faults.specs.Refusals.{answer};
ghost use Rattle.ranks.specs.Ranks.{ranking, EachOnce, Ascends, Walked};
ghost use Rattle.alphabets.specs.Questions.{rank_fault, amounts};
ghost use Rattle.alphabets.specs.Lists.{list_of};

use alphabets::indices::Indices;
use alphabets::question::Ranked;
use faults::alphabet::AlphabetFault;

// The nearest point's index first.
pub type Ranking = Indices<256>;

// The first index, and then what follows, up to the last: of a target and a gain, as an alphabet is asked.
#[tactic(auto, using(ranks::proofs::Ranks::each_once, ranks::proofs::Ranks::ascends, ranks::proofs::Ranks::walks))]
pub fn whole_ranking<B: Ranked>(
    alphabet: &B,
    target: B::Point,
    gain: u32,
) -> Result<Ranking, AlphabetFault>
    ensures answer { result_map_both list_of (λ f. f) result ≡ answer (rank_fault (B.Point.Kind.meaning target) gain) (ranking (amounts (B.Alphabet.points alphabet.now) (B.Point.Kind.meaning target) gain)) }
    ensures once { EachOnce }
    ensures ascends { Ascends }
    ensures walked { Walked }
{
    let mut ranking = Ranking::new();
    let mut next = Some(alphabet.first(target, gain)?);
    while let Some(index) = next {
        ranking.push(index);
        next = alphabet.next(target, gain, index)?;
    }
    Ok(ranking)
}
