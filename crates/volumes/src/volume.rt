// A volume: its drive, and what it keeps in memory.
use memory::state::Memory;

pub mod files;
pub mod map;
pub mod phases;
pub mod salvage;
mod shown;
pub mod slots;
pub mod tickets;

#[derive(Drop)]
pub struct Volume<D> {
    drive: D,
    memory: Memory,
}
