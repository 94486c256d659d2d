// Pairs as points, complex numbers with whole parts: blocks of four levels.
ghost use Rattle.points.specs.Points.{gaussian, pair as pair_shape};
ghost use Rattle.std.specs.Prelude.{pos, Some};
ghost use Rattle.points.specs.Texts.{pair_text};
ghost use Rattle.std.proofs.Common.{refl};

use crate::kind::{Kind, Origin};
use crate::part::{product, squared_offset};
use std::fmt;

#[derive(Clone, Copy, PartialEq, Eq, Debug)]
pub struct Pair {
    pub re: i32,
    pub im: i32,
}

impl Kind for Pair {
    ghost shape = { pair_shape };

    ghost meaning = { λ p. gaussian p.re p.im };

    ghost LEVELS = { 4 };

    ghost PARTS = { 2 };

    const LEVELS: usize = 4;

    const PARTS: usize = 2;

    ghost own = { λ p. refl };

    ghost faithful = { λ _ _ same i. record { re = (same i).re; im = (same i).im } };

    ghost level_count = { refl };

    ghost part_count = { refl };

    fn from_parts(re: i32, im: i32) -> Pair {
        Pair { re, im }
    }

    fn read(words: &[i32], index: usize) -> Pair {
        Pair {
            re: words[2 * index],
            im: words[2 * index + 1],
        }
    }

    fn real(self) -> i32 {
        self.re
    }

    fn imaginary(self) -> i32 {
        self.im
    }

    fn minus_product(self, entry: Pair, point: Pair) -> Pair {
        let re = product(entry.re, point.re) - product(entry.im, point.im);
        let im = product(entry.re, point.im) + product(entry.im, point.re);
        Pair {
            re: self.re - re,
            im: self.im - im,
        }
    }

    fn amount(self, gain: u32, point: Pair) -> u64 {
        squared_offset(self.re, gain, point.re) + squared_offset(self.im, gain, point.im)
    }
}

impl Origin for Pair {
    ghost ORIGIN = { record { re = pos 0; im = pos 0 } };

    const ORIGIN: Pair = Pair { re: 0, im: 0 };

    ghost at_origin = { refl };

    fn origin_alone() -> &'static [Pair] {
        &[Pair { re: 0, im: 0 }]
    }
}

// As 12-7i. The sign is written here, since what `{im:+}` writes is stated by rules of padding.
impl fmt::Display for Pair {
    ghost output = { λ p. Some (pair_text p) };

    fn fmt<W: fmt::Write>(&self, f: &mut fmt::Formatter<W>) -> fmt::Result {
        let (re, im) = (self.re, self.im);
        if im < 0 {
            write!(f, "{re}{im}i")
        } else {
            write!(f, "{re}+{im}i")
        }
    }
}
