// What a volume keeps in memory.
use arrayvec::ArrayVec;
use model::memory::{File, MapState, Phase};
use std::marker::Model;

pub mod asking;
pub mod files;
pub mod stock;
pub mod tickets;

// The stock is the addresses in service, oldest first, and the unsettled ones; id, entries and trouble are the opened
// label's. Stock and tickets hold at most 32 addresses, and nothing is unsettled while the map is idle.
#[derive(Drop)]
pub struct Memory {
    phase: Phase,
    chart: MapState,
    counts: [u32; 3],
    service: ArrayVec<u16, 32>,
    unsettled: ArrayVec<u16, 32>,
    tickets: [Option<u16>; 4],
    files: [Option<File>; 8],
    id: u32,
    entries: u16,
    trouble: u32,
}

impl Model for Memory {
    ghost use Rattle.model.specs.Memory as model;

    ghost Value = { model.Memory };

    ghost use Rattle.memory.specs.Bounds.{Sound};
    ghost use Rattle.memory.specs.View.{kept};

    ghost view = { kept };

    ghost invariant = { λ m. Sound (kept m) };
}
