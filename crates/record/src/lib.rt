// The records of a volume: words, the check word, and the layouts of labels, map sections and entries.
#![tactic(auto)]

pub mod control;
pub mod entry;
pub mod label;
pub mod laws;
pub mod region;
pub mod section;
mod words;
