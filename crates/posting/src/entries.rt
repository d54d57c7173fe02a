// Entries, as an update moves their slots and as they are posted.
ghost use Rattle.std.specs.Prelude.{◌≡◌, ◌<◌, map, length};
ghost use Rattle.drive.specs.Answers.{post_answer, PostLeaves};
ghost use Rattle.drive.specs.Faults.{said};
ghost use Rattle.model.specs.Slots.{updated};
ghost use Rattle.model.specs.Volume.{entry_at, entry_bytes};

use drive::device::Drive;
use drive::fault::Fault;
use model::memory::Slot;
use reading::layout::{FIRST_ENTRY, SUM_START};
use record::control::RECORD;
use record::entry::Entry;
use std::array;

// Posts the record of entry `number` of the volume with this id. The number is one that a file holds, and so in its limits.
pub fn post_entry<D: Drive>(
    drive: &mut D,
    id: u32,
    number: u16,
    entry: &Entry,
    page: &mut [u8; RECORD],
) -> Result<(), Fault>
    requires { number < 3968 }
    ensures answer { said result ≡ post_answer D.Of.DEPTH D.Of.LIFE (D.meaning drive.old) (entry_at number) (length (entry_bytes id entry.now)) }
    ensures after { PostLeaves result (D.meaning drive.old) (entry_at number) (entry_bytes id entry.now) (D.meaning drive.new) }
{
    entry.encode(SUM_START, id, page);
    drive.post(FIRST_ENTRY + number, page)
}

// What an update makes of the slots, as long as the drive can be asked.
pub fn moved_slots<D: Drive>(drive: &D, slots: [Slot; 64]) -> [Slot; 64]
    ensures { result ≡ map (updated (D.meaning drive.now)) slots }
{
    array::from_fn(|p| moved_slot(drive, slots[p]))
}

pub fn moved_slot<D: Drive>(drive: &D, slot: Slot) -> Slot
    ensures { result ≡ updated (D.meaning drive.now) slot }
{
    match slot {
        Slot::Nulled(a) if !drive.pending(a) => Slot::Live(a),
        Slot::Leaving(a) => Slot::Left(a),
        other => other,
    }
}
