// The meters of the round, and what their pages of readings hold.
use record::region::FIRST_ENTRY;
use std::fmt;

// A meter, the entry that it has on the volume, and the file that it is worked on in.
#[derive(Clone, Copy)]
pub struct Meter {
    pub number: u32,
    pub entry: u16,
    pub file: usize,
}

pub const METERS: [Meter; 3] = [
    Meter {
        number: 7001,
        entry: 0,
        file: 0,
    },
    Meter {
        number: 7002,
        entry: 1,
        file: 1,
    },
    Meter {
        number: 7003,
        entry: 2,
        file: 2,
    },
];

// How many pages a meter has of an evening.
pub const PAGES: usize = 2;

impl Meter {
    // The record of the meter's entry.
    pub fn record(self) -> usize {
        usize::from(FIRST_ENTRY) + usize::from(self.entry)
    }

    // The first byte of a page; each next byte is 3 more.
    fn first_byte(self, slot: usize) -> u8 {
        let [_, _, high, low] = self.number.to_be_bytes();
        let [shift, ..] = slot.to_le_bytes();
        high.rotate_left(4)
            .wrapping_add(low)
            .wrapping_add(shift.wrapping_mul(89))
    }

    // The page of readings for a slot.
    pub fn readings(self, slot: usize) -> [u8; 512] {
        let mut page = [0; 512];
        let mut next = self.first_byte(slot);
        for byte in &mut page {
            *byte = next;
            next = next.wrapping_add(3);
        }
        page
    }
}

impl fmt::Display for Meter {
    fn fmt<W: fmt::Write>(&self, f: &mut fmt::Formatter<W>) -> fmt::Result {
        write!(f, "meter {}", self.number)
    }
}
