// Drives of 512-byte records: what one means, what its calls promise, and three kinds.
#![tactic(auto)]

mod asking;
mod backlog;
pub mod buffered;
pub mod cabinet;
pub mod card;
pub mod device;
pub mod fault;
pub mod kinds;
pub mod lab;
pub mod laws;
pub mod pace;
mod queued;
mod surface;
