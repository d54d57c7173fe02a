// What a volume is and does, as definitions, and the laws that bind it.
#![tactic(auto)]

pub mod answers;
pub mod memory;
pub mod memory_law;
pub mod names_law;
pub mod new;
pub mod pages_law;
pub mod plan_laws;
pub mod power_cuts;
pub mod runs;
pub mod salvage_law;
