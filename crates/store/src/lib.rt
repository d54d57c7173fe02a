// Making a new volume on a bare drive.
#![tactic(auto)]

pub mod making;
mod through;
