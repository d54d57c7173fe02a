// A look at a volume: what its control records show, and how many pages its entries name.
#![tactic(auto)]

pub mod survey;
