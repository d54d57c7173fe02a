// Runs of the other crates, as tests.
#![tactic(auto)]

#[cfg(test)]
mod drives;
#[cfg(test)]
mod makes;
pub mod noting;
