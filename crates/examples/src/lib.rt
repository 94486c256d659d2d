// Examples of every rule, as tests.
#![tactic(auto)]

#[cfg(test)]
mod loading;
#[cfg(test)]
mod nearest;
#[cfg(test)]
mod points_of_alphabets;
#[cfg(test)]
mod rounding;
#[cfg(test)]
mod targets;
