// Rounding: raw words carry up to 8 extra bits.
ghost use Rattle.std.specs.Prelude.{◌≡◌, ◌-◌, ◌^◌, ◌<◌, ◌≤◌, pos};
ghost use Rattle.std.specs.Result.{result_map_both};
ghost use Rattle.blocks.specs.Rounding.{down, RoundsDown, rounded, bits_answer};

use faults::load::LoadFault;

// A number of extra bits: `try_from` refuses more than 8.
#[derive(Clone, Copy)]
pub struct ExtraBits {
    count: u8,
    ghost few: { count ≤ 8 },
}

impl TryFrom<u8> for ExtraBits {
    type Error = LoadFault;

    ghost try_from_gives = { λ count r.
        result_map_both (λ b. b.count) (λ f. f) r ≡ bits_answer count };

    fn try_from(count: u8) -> Result<Self, LoadFault> {
        if count > 8 {
            return Err(LoadFault::ExtraBits);
        }
        Ok(ExtraBits { count })
    }
}

impl ExtraBits {
    // The word without its extra bits, to the nearest number, halves up.
    pub fn round(self, word: i32) -> i32
        ensures value { result ≡ rounded self.count word }
        ensures down { RoundsDown }
    {
        if self.count == 0 {
            return word;
        }
        self.quotient(i64::from(word) + self.half()) as i32
    }

    // Half of 2^count.
    fn half(self) -> i64
        requires { 0 < self.count }
        ensures { result ≡ pos (2 ^ (self.count - 1)) }
    {
        1 << (self.count - 1)
    }

    // x / 2^count, rounded down.
    fn quotient(self, x: i64) -> i64
        ensures { result ≡ down x (2 ^ self.count) }
    {
        x >> self.count
    }
}
