// What a volume keeps in memory, as types whose cases the plans name: its phase, what its map is doing, and its files.

// A volume is opened, worked on, closed and shut.
#[derive(Clone, Copy, PartialEq, Eq, Debug)]
pub enum Phase {
    Shut,
    Open,
    Closing,
}

// The map is idle, or one of its sections is being written.
#[derive(Clone, Copy, PartialEq, Eq, Debug)]
pub enum MapState {
    Idle,
    Writing(u8),
}

// A slot of a file, and the address of its page.
#[derive(Clone, Copy, PartialEq, Eq, Debug)]
pub enum Slot {
    // No page.
    Empty,
    // The page was placed; the entry does not name it yet.
    Nulled(u16),
    // The entry names the page.
    Live(u16),
    // The page was cleared; the entry still names it.
    Leaving(u16),
    // The entry no longer names the page.
    Left(u16),
}

// An entry in use.
#[derive(Clone, Copy)]
pub struct File {
    pub entry: u16,
    pub meter: u32,
    pub slots: [Slot; 64],
}
