// Short lists of indices, in place.
ghost use Rattle.std.specs.Prelude.{◌≡◌, ◌<◌, ◌≤◌, [], ◌∷◌, ◌++◌, length, take};
ghost use Rattle.alphabets.specs.Padding.{Filled};

// At most N indices; contracts elsewhere see the list of them, `list_of`. Places that are not used hold 0, so that equal lists are
// equal values. A ghost field and no `Model`, since a struct that holds one, as a decision does, is not copied when it is passed twice.
#[derive(Clone, Copy, PartialEq, Eq, Debug)]
pub struct Indices<const N: usize> {
    places: [usize; N],
    count: usize,
    ghost filled: { Filled N count places },
}

impl<const N: usize> Indices<N> {
    pub fn new() -> Indices<N>
        ensures { take result.count result.places ≡ [] }
    {
        Indices {
            places: [0; N],
            count: 0,
        }
    }

    pub fn push(&mut self, index: usize)
        requires { length (take self.old.count self.old.places) < N }
        ensures { take self.new.count self.new.places
            ≡ take self.old.count self.old.places ++ index ∷ [] }
    {
        self.places[self.count] = index;
        self.count += 1;
    }

    pub fn as_slice(&self) -> &[usize]
        ensures list { result.now ≡ take self.now.count self.now.places }
        ensures few { length result.now ≤ N }
    {
        &self.places[..self.count]
    }
}
