// An entry: the meter number in word 2, and 64 slots of 16 bits in words 8 to 39.
ghost use Rattle.std.specs.Prelude.{◌≡◌, ◌==◌};
ghost use Rattle.record.specs.Entries.{free_entry, entry_record, entry_in, entry_laid_out, whole_entry, sound_entry, may_stand, addresses_sound};

use crate::control::{is_whole, seal};
use crate::region::Region;
use crate::words::{clear, get_word, joined, put_word, zero_between};
use std::array;

// A slot holds a page's address, or 0 for no page. A free entry has the meter number 0.
#[derive(Clone, Copy, PartialEq, Eq, Debug)]
pub struct Entry {
    pub meter: u32,
    pub slots: [u16; 64],
}

impl Entry {
    // An entry without a meter and without pages.
    pub fn free() -> Entry
        ensures { result ≡ free_entry }
    {
        Entry {
            meter: 0,
            slots: [0; 64],
        }
    }

    // Writes the entry over the whole page.
    pub fn encode(&self, start: u32, id: u32, page: &mut [u8; 512])
        ensures { page.new ≡ entry_record start id self.now }
    {
        clear(page);
        put_word(page, 0, id);
        put_word(page, 2, self.meter);
        let (pairs, _) = self.slots.as_chunks::<2>();
        for (k, pair) in pairs.iter().enumerate() {
            put_word(page, 8 + k, joined(pair[0], pair[1]));
        }
        seal(page, start);
    }

    // The entry in a page, where that is whole, whatever its unused words hold.
    pub fn decode_whole(page: &[u8], start: u32, id: u32) -> Option<Entry>
        ensures { result ≡ whole_entry start id page.now }
    {
        let page = page.as_array::<512>()?;
        if !is_whole(page, start, id) {
            return None;
        }
        Some(Entry::read(page))
    }

    // The entry in a page, where it is sound.
    pub fn decode(page: &[u8], start: u32, id: u32, region: &Region) -> Option<Entry>
        ensures { result ≡ sound_entry start id region.now page.now }
    {
        let page = page.as_array::<512>()?;
        if !is_whole(page, start, id) || !is_laid_out(page) {
            return None;
        }
        let entry = Entry::read(page);
        if !entry.has_sound_addresses(region) {
            return None;
        }
        Some(entry)
    }

    // The numbers that stand in an entry's places.
    fn read(page: &[u8; 512]) -> Entry
        ensures { result ≡ entry_in page.now }
    {
        let (halves, _) = page[32..160].as_chunks::<2>();
        Entry {
            meter: get_word(page, 2),
            slots: array::from_fn(|p| u16::from_be_bytes(halves[p])),
        }
    }

    // Each address lies in the region, none stands twice, and a free entry has none.
    pub fn has_sound_addresses(&self, region: &Region) -> bool
        ensures { result ≡ addresses_sound region.now self.now }
    {
        self.slots.iter().enumerate().all(|(p, a)| *a == 0
            || may_stand(self.meter, region, *a, &self.slots[p + 1..]))
    }

    pub fn is_free(&self) -> bool
        ensures { result ≡ (self.now.meter == 0) }
    {
        self.meter == 0
    }
}

// The words that an entry does not use are zero.
fn is_laid_out(page: &[u8; 512]) -> bool
    ensures { result ≡ entry_laid_out page.now }
{
    zero_between(page, 3, 8) && zero_between(page, 40, 128)
}

// The address `a` may stand before the slots `rest` of an entry with this meter number.
fn may_stand(meter: u32, region: &Region, a: u16, rest: &[u16]) -> bool
    ensures { result ≡ may_stand meter region.now a rest.now }
{
    meter != 0 && region.contains(u32::from(a)) && !rest.contains(&a)
}
