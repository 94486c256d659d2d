// Grids: pair alphabets over any whole alphabet.
#![tactic(auto)]

pub mod grid;
mod weigh;
