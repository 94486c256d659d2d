// Whole numbers as points: blocks of eight levels.
ghost use Rattle.points.specs.Points.{real as real_point, whole as whole_shape};
ghost use Rattle.std.specs.Prelude.{pos};
ghost use Rattle.std.proofs.Common.{refl};

use crate::kind::{Kind, Origin};
use crate::part::{product, squared_offset};

#[derive(Clone, Copy, PartialEq, Eq, Debug)]
pub struct Whole {
    pub value: i32,
}

impl Kind for Whole {
    ghost shape = { whole_shape };

    ghost meaning = { λ p. real_point p.value };

    ghost LEVELS = { 8 };

    ghost PARTS = { 1 };

    const LEVELS: usize = 8;

    const PARTS: usize = 1;

    ghost own = { λ p. refl };

    ghost faithful = { λ _ _ same i. record { value = (same i).re } };

    ghost level_count = { refl };

    ghost part_count = { refl };

    fn from_parts(re: i32, _im: i32) -> Whole {
        Whole { value: re }
    }

    fn read(words: &[i32], index: usize) -> Whole {
        Whole {
            value: words[index],
        }
    }

    fn real(self) -> i32 {
        self.value
    }

    fn imaginary(self) -> i32 {
        0
    }

    fn minus_product(self, entry: Whole, point: Whole) -> Whole {
        Whole {
            value: self.value - product(entry.value, point.value),
        }
    }

    fn amount(self, gain: u32, point: Whole) -> u64 {
        squared_offset(self.value, gain, point.value)
    }
}

impl Origin for Whole {
    ghost ORIGIN = { record { value = pos 0 } };

    const ORIGIN: Whole = Whole { value: 0 };

    ghost at_origin = { refl };

    fn origin_alone() -> &'static [Whole] {
        &[Whole { value: 0 }]
    }
}
