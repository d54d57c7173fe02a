// The record store of a meter collector: a volume and its calls, each carried out as its plan says.
#![tactic(auto)]

pub mod tokens;
pub mod volume;
