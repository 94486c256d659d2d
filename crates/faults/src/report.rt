// What a caller is told of a refusal.

// Where a refusal comes from.
#[derive(Clone, Copy, PartialEq, Eq, Debug)]
pub enum Layer {
    Alphabet,
    Decoder,
    Log,
}

// The refusal's number and its place, which the rules give it: the word or point that it is about, counted from 0, or else 0; and
// its layer.
#[derive(Clone, Copy, PartialEq, Eq, Debug)]
pub struct Report {
    pub number: u8,
    pub place: usize,
    pub layer: Layer,
}
