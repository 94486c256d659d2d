// PAM: equally spaced whole numbers around 0.
ghost use Rattle.std.specs.Prelude.{◌≡◌};
ghost use Rattle.pams.specs.Pams.{pam_size, pam_points, size_answer, FourRanks};
ghost use Rattle.pams.specs.PamsLemmas.{sized, pam_lawful};

use crate::steps::{first_step, half_steps, next_step};
use alphabets::alphabet::Alphabet;
use alphabets::question::{Question, Ranked};
use faults::alphabet::AlphabetFault;
use points::kind::Kind;
use points::whole::Whole;

// The sizes that a PAM may have: `PamSize::try_from` refuses every other number.
#[derive(Clone, Copy, PartialEq, Eq, Debug)]
pub enum PamSize {
    Two = 2,
    Four = 4,
    Eight = 8,
    Sixteen = 16,
}

impl TryFrom<usize> for PamSize {
    type Error = AlphabetFault;

    ghost try_from_gives = { λ size r. r ≡ size_answer size };

    fn try_from(size: usize) -> Result<PamSize, AlphabetFault> {
        match size {
            2 => Ok(PamSize::Two),
            4 => Ok(PamSize::Four),
            8 => Ok(PamSize::Eight),
            16 => Ok(PamSize::Sixteen),
            _ => Err(AlphabetFault::PamSize),
        }
    }
}

// How many points a PAM of this size has.
impl From<PamSize> for usize {
    ghost from_gives = { λ size count. count ≡ pam_size size };

    fn from(size: PamSize) -> usize {
        size as usize
    }
}

#[derive(Clone, Copy)]
pub struct Pam {
    size: PamSize,
}

impl Pam {
    pub fn new(size: PamSize) -> Pam
        ensures size { result.size ≡ size }
        ensures ranks { FourRanks }
    {
        Pam { size }
    }
}

#[tactic(auto, using(crate::specs::PamsLemmas::pam_length))]
impl Alphabet for Pam {
    type Point = Whole;

    ghost points = { λ p. pam_points (pam_size p.size) };

    ghost lawful = { λ p. pam_lawful (pam_size p.size) (sized p.size) };

    fn size(&self) -> usize {
        usize::from(self.size)
    }

    fn point(&self, index: usize) -> Result<Whole, AlphabetFault> {
        let size = usize::from(self.size);
        if index < size {
            Ok(Whole {
                value: 2 * index as i32 - (size as i32 - 1),
            })
        } else {
            Err(AlphabetFault::Index)
        }
    }
}

#[tactic(auto, using(crate::specs::PamsLemmas::pam_length))]
impl Ranked for Pam {
    fn first(&self, target: Whole, gain: u32) -> Result<usize, AlphabetFault> {
        let question = Question::new(target, gain)?;
        let size = usize::from(self.size);
        Ok(first_step(half_steps(size, &question), size))
    }

    fn next(&self, target: Whole, gain: u32, index: usize) -> Result<Option<usize>, AlphabetFault> {
        let question = Question::new(target, gain)?;
        let size = usize::from(self.size);
        if index >= size {
            return Err(AlphabetFault::Index);
        }
        Ok(next_step(half_steps(size, &question), size, index))
    }
}
