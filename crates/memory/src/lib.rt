// What a volume keeps in memory, and what its calls do there.
#![tactic(auto)]

pub mod entries;
pub mod map;
pub mod numbers;
pub mod state;
