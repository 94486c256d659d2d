// The kind of a point: what targets and amounts need of it.
ghost use Rattle.std.specs.Prelude.{◌≡◌, ℕ, ◌+◌, ◌*◌, ◌^◌, ◌<◌, ◌≤◌, [], ◌∷◌, map, length};
ghost use Rattle.points.specs.Points.{Gaussian, gaussian, minus, times, amount, Within, Shape, project, levels, parts, value_at, origin};

pub trait Kind: Copy {
    ghost shape: { Shape };

    ghost meaning: { Self → Gaussian };

    ghost LEVELS: { ℕ };

    ghost PARTS: { ℕ };

    // how many levels a block of this kind has
    const LEVELS: usize;

    // how many words a channel or received value takes
    const PARTS: usize;

    // The value with these parts; a whole number takes the first alone.
    fn from_parts(re: i32, im: i32) -> Self
        ensures { meaning result ≡ project shape (gaussian re im) };

    // The value number `index` of those that the words hold one after another.
    fn read(words: &[i32], index: usize) -> Self
        requires { parts shape * index + parts shape ≤ length words.now }
        ensures { meaning result ≡ value_at shape words.now (parts shape * index) };

    fn real(self) -> i32
        ensures { result ≡ (meaning self).re };

    fn imaginary(self) -> i32
        ensures { result ≡ (meaning self).im };

    // u − r·s, for the target u that `self` is. Each value's limit is asked here and below and is not in its type,
    // since a target, an entry and a point are all of this one.
    fn minus_product(self, entry: Self, point: Self) -> Self
        requires target { Within 1048576 (meaning self) }
        requires entry { Within 2048 (meaning entry) }
        requires point { Within 15 (meaning point) }
        ensures { meaning result ≡ minus (meaning self) (times (meaning entry) (meaning point)) };

    // |u − r·s|², for the target u that `self` is.
    fn amount(self, gain: u32, point: Self) -> u64
        requires target { Within 1048576 (meaning self) }
        requires gain { gain ≤ 2047 }
        requires point { Within 15 (meaning point) }
        ensures value { result ≡ amount (meaning self) gain (meaning point) }
        ensures bound { result < 2 ^ 42 };

    // a value of this kind has no more parts than its shape
    ghost own: { (p : Self) → project shape (meaning p) ≡ meaning p };

    // the meaning leaves nothing out
    ghost faithful: { (p q : Self) → meaning p ≡ meaning q → p ≡ q };

    // the numbers are those of the shape
    ghost level_count: { LEVELS ≡ levels shape };

    ghost part_count: { PARTS ≡ parts shape };
}

// A kind whose point 0 is a constant of the program. It stands apart, so that no kind has to be one.
pub trait Origin: Kind {
    ghost ORIGIN: { Self };

    const ORIGIN: Self;

    // The list of the origin alone: `&[Self::ORIGIN]` is no constant of the program.
    fn origin_alone() -> &'static [Self]
        ensures { map Self.meaning result.now ≡ origin ∷ [] };

    ghost at_origin: { Self.meaning ORIGIN ≡ origin };
}
