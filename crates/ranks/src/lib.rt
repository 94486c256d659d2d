// Rank: the order in which the points of an alphabet are looked at.
#![tactic(auto)]

pub mod key;
