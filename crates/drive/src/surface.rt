// Records of 512 bytes that lie in bytes handed in, with a mark byte for each: not 0 where the record is spoiled. Bytes and
// marks are two pieces of memory, by a rule of the project.
ghost use Rattle.std.specs.Prelude.{◌≡◌, ◌<◌, true, length, slice_index_or, slice_set};
ghost use Rattle.drive.specs.Each.{each, holds_bytes};
ghost use Rattle.drive.specs.Meaning.{readable, spoiled};
ghost use Rattle.drive.specs.Surfaces.{extent, states};

use crate::device::RECORD;

// A `u16` addresses no more, since 65535 names no record.
pub const MOST_RECORDS: usize = 65535;

#[derive(Drop)]
pub struct Surface<'a> {
    bytes: &'a mut [u8],
    marks: &'a mut [u8],
    ghost sized: { each holds_bytes (states bytes.now marks.now) ≡ true },
}

// How many records there are in so many bytes with so many marks.
fn extent(bytes: usize, marks: usize) -> usize
    ensures { result ≡ extent bytes marks }
{
    (bytes / RECORD).min(marks).min(MOST_RECORDS)
}

impl<'a> Surface<'a> {
    ghost use Rattle.drive.specs.Disks.{disk, record_state, SameMemory, WorksIn};

    pub fn new(bytes: &'a mut [u8], marks: &'a mut [u8]) -> Self
        ensures records { disk result ≡ states bytes.old marks.old }
        ensures lent { WorksIn result bytes.entry marks.entry }
    {
        Surface { bytes, marks }
    }

    pub fn size(&self) -> usize
        ensures { result ≡ length (disk self.now) }
    {
        extent(self.bytes.len(), self.marks.len())
    }

    // A record's bytes, unless it is spoiled.
    pub fn shown(&self, at: u16) -> Option<&[u8; 512]>
        requires { at < length (disk self.now) }
        ensures { record_state result ≡ slice_index_or (disk self.now) at spoiled }
    {
        let at = usize::from(at);
        if self.marks[at] != 0 {
            return None;
        }
        let from = at * RECORD;
        self.bytes[from..from + RECORD].as_array()
    }

    // Writes a record, which then is readable.
    pub fn settle(&mut self, at: u16, bytes: &[u8; 512])
        requires { at < length (disk self.old) }
        ensures records { disk self.new ≡ slice_set (disk self.old) at (readable bytes.now) }
        ensures lent { SameMemory self.old self.new }
    {
        let at = usize::from(at);
        let from = at * RECORD;
        self.bytes[from..from + RECORD].copy_from_slice(bytes);
        self.marks[at] = 0;
    }
}
