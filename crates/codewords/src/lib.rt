// Codewords: their distance, their order, and the nearest of them by looking at every one.
#![tactic(auto)]

pub mod codebook;
pub mod codeword;
pub mod distance;
pub mod exhaustive;
pub mod target;
