// Targets, gains and indices, the same on every run.
use points::kind::Kind;

#[derive(Clone, Copy)]
pub struct Draw {
    state: u32,
}

impl Draw {
    pub fn new() -> Draw {
        Draw { state: 1 }
    }

    // A number below 2^24.
    fn number(&mut self) -> u32 {
        self.state = self
            .state
            .wrapping_mul(1_664_525)
            .wrapping_add(1_013_904_223);
        self.state >> 8
    }

    fn part(&mut self) -> i32 {
        (self.number() & 16_383) as i32 - 8192
    }

    pub fn target<K: Kind>(&mut self) -> K {
        let re = self.part();
        let im = self.part();
        K::from_parts(re, im)
    }

    pub fn gain(&mut self) -> u32 {
        self.number() & 2047
    }

    // The size is a power of two.
    pub fn index(&mut self, size: usize) -> usize {
        self.number() as usize & size.wrapping_sub(1)
    }
}
