// Rank among equally spaced points, by where the target stands: in half steps above the first point, rounded up.
ghost use Rattle.std.specs.Prelude.{◌≡◌, ℕ, ◌<◌, ◌≤◌, List, length, Some};
ghost use Rattle.points.specs.Points.{real};
ghost use Rattle.ranks.specs.Ranks.{first_in, next_in};
ghost use Rattle.alphabets.specs.Questions.{amounts};
ghost use Rattle.pams.specs.Pams.{pam_points};
ghost use Rattle.pams.specs.Steps.{HalfSteps};

use alphabets::question::Question;
use points::whole::Whole;

// Neighbours are two gains apart. At a gain of 0 all points are equally near, as if the target stood at the first. How many
// points there are is a number here and below, which the steps divide and compare.
pub fn half_steps(size: usize, question: &Question<Whole>) -> usize
    requires some { 0 < size }
    requires few { size ≤ 16 }
    ensures value { HalfSteps (amounts (pam_points size) (real question.now.target.value) question.now.gain) result }
    ensures bound { result < 4294967296 }
{
    let gain = question.gain;
    let to_middle = (size as u32 - 1) * gain;
    let above_first = question.target.value + to_middle as i32;
    if gain == 0 || above_first <= 0 {
        return 0;
    }
    above_first.unsigned_abs().div_ceil(gain) as usize
}

// The point nearest to the target, the lower of two, up to the last.
pub fn first_step(steps: usize, size: usize) -> usize
    requires { 0 < size }
    ensures { (ws : List ℕ) → length ws ≡ size → HalfSteps ws steps → first_in ws ≡ Some result }
{
    (steps / 2).min(size - 1)
}

// From either side of the target to the other; away from it once the other side has no more points.
pub fn next_step(steps: usize, size: usize, index: usize) -> Option<usize>
    requires index { index < size }
    requires size { size ≤ 16 }
    ensures { (ws : List ℕ) → length ws ≡ size → HalfSteps ws steps → next_in ws index ≡ result }
{
    if 2 * index < steps {
        let across = steps - index;
        if across < size {
            return Some(across);
        }
        return index.checked_sub(1);
    }
    if index < steps {
        return Some(steps - index - 1);
    }
    let above = index + 1;
    if above < size { Some(above) } else { None }
}
