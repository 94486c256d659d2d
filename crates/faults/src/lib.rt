// Every refusal of every layer: the error enums, and the number, place and layer of each case.
#![tactic(auto)]

pub mod alphabet;
pub mod load;
pub mod report;
