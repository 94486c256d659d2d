// Points: whole numbers and complex numbers with whole parts, under one trait.
#![tactic(auto)]

pub mod kind;
pub mod limits;
pub mod pair;
mod part;
pub mod whole;
