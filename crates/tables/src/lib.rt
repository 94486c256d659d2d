// Tables: alphabets over a list of points that the caller holds.
#![tactic(auto)]

pub mod check;
mod least;
pub mod list;
pub mod table;
