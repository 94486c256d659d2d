// The whole ranking of an alphabet, for whoever wants to see it.
#![tactic(auto)]

pub mod ranking;
