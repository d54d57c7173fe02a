// What the control records of a volume show, and the page that a call works in.
#![tactic(auto)]

pub mod layout;
pub mod shown;
pub mod work;
