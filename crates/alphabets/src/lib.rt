// Alphabets: lists of distinct points, each point known by its index.
#![tactic(auto)]

pub mod alphabet;
pub mod indices;
pub mod question;
