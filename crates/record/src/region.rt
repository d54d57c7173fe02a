// The limits of a volume, its page region, and what a map section covers.
ghost use Rattle.std.specs.Prelude.{◌≡◌};
ghost use Rattle.record.specs.Regions.{in_limits, within, page_region, map_span};

// The records before the entries: the label, the map, spare records and the label's copy.
pub const FIRST_ENTRY: u16 = 8;

// How many numbers a map section has bits for.
pub const COVERED: u32 = 3968;

const MOST_ENTRIES: u32 = 3968;

const MOST_RECORDS: usize = 11904;

// The numbers from `from` to `to` - 1.
#[derive(Clone, Copy, PartialEq, Eq, Debug)]
pub struct Region {
    pub from: u32,
    pub to: u32,
}

// What a map section covers: the first number, how many of the numbers from there on exist, and which may be free.
#[derive(Clone, Copy, PartialEq, Eq, Debug)]
pub struct Span {
    pub first: u32,
    pub covered: u32,
    pub free: Region,
}

// The id is not 0, and the numbers of entries and of records are in their limits.
pub fn in_limits(id: u32, entries: u32, records: usize) -> bool
    ensures { result ≡ in_limits id entries records }
{
    id != 0
        && (1..=MOST_ENTRIES).contains(&entries)
        && entries as usize + 9 <= records
        && records <= MOST_RECORDS
}

impl Region {
    // The records that hold pages, in a volume of so many entries and records.
    pub fn of_pages(entries: u16, records: u16) -> Region
        ensures { result ≡ page_region entries records }
    {
        Region {
            from: u32::from(FIRST_ENTRY) + u32::from(entries),
            to: u32::from(records),
        }
    }

    pub fn contains(&self, n: u32) -> bool
        ensures { result ≡ within self.now n }
    {
        (self.from..self.to).contains(&n)
    }
}

impl Span {
    // What section `k` of the map covers, in a volume of so many entries and records.
    pub fn of_map(k: u8, entries: u16, records: u16) -> Span
        ensures { result ≡ map_span k entries records }
    {
        let first = COVERED * u32::from(k);
        Span {
            first,
            covered: COVERED.min(u32::from(records).saturating_sub(first)),
            free: Region::of_pages(entries, records),
        }
    }
}
