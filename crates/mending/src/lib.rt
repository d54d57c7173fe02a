// What a salvage has to post next.
#![tactic(auto)]

mod entries;
pub mod next;
mod sections;
mod shows;
mod tally;
mod unmended;
