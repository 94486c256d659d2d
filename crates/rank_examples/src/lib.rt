// Examples of rank, and of what tables and questions refuse, as tests.
#![tactic(auto)]

#[cfg(test)]
mod own_list;
#[cfg(test)]
mod refusals;
#[cfg(test)]
mod walks;
