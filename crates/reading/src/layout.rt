// Where a volume's records lie.

// The number that every check sum starts at.
pub const SUM_START: u32 = 0;

pub const LABEL: u16 = 0;

pub const FIRST_SECTION: u16 = 1;

pub const SECTIONS: u8 = 3;

pub const LABEL_COPY: u16 = 7;

pub use record::region::FIRST_ENTRY;
