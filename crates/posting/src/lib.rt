// Steps that the calls of a volume share: questions, and what a drive shows and is posted.
#![tactic(auto)]

pub mod asking;
pub mod entries;
pub mod labels;
pub mod sections;
