// PAM as an alphabet.
#![tactic(auto)]

pub mod pam;
mod steps;
