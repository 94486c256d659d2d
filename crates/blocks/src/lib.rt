// Blocks: a triangular channel and what was received, read from raw words.
#![tactic(auto)]

pub mod block;
pub mod rounding;
pub mod words;
