// The tally: a byte for each record of the drive, not 0 where the record's address is noted. It goes beside its region: in
// one value with it, every function that notes would have to promise that the region stays.
ghost use Rattle.std.specs.Prelude.{◌≡◌, ℕ, ◌≤◌, false, not, ◌&&◌, length, if◌then◌else◌, slice_set};
ghost use Rattle.drive.specs.Meaning.{shown};
ghost use Rattle.mending.specs.Sought.{pages_of, named_in};
ghost use Rattle.mending.specs.Tallies.{noted, Tallies, Adds};
ghost use Rattle.record.specs.Regions.{within};

use drive::device::Drive;
use reading::shown::Records;
use record::control::RECORD;
use record::region::Region;

// What a noted address has for its byte.
const NOTED: u8 = 1;

// Notes the addresses that the sound entries name, and no other.
pub(crate) fn tally_named<D: Drive>(records: &Records<D>, page: &mut [u8; RECORD], tally: &mut [u8])
    requires { records.now.label.records ≤ length tally.old }
    ensures { Tallies (pages_of records.now.label) tally.new (named_in records.now.label (shown (D.meaning records.now.drive.now))) }
{
    let region = records.region();
    clear(tally);
    for i in 0..records.label.entries {
        if let Some(entry) = records.entry(i, page) {
            note_slots(&entry.slots, &region, tally);
        }
    }
}

// Notes nothing any more.
pub(crate) fn clear(tally: &mut [u8])
    ensures { (a : ℕ) → noted tally.new a ≡ false }
{
    tally.fill(0);
}

// Notes an address of the region that was not noted before; the answer is whether it did.
pub(crate) fn note(a: u16, region: &Region, tally: &mut [u8]) -> bool
    requires { region.now.to ≤ length tally.old }
    ensures new { result ≡ (within region.now a && not (noted tally.old a)) }
    ensures after { tally.new ≡ (if result then slice_set tally.old a 1 else tally.old) }
{
    let at = usize::from(a);
    if !region.contains(u32::from(a)) || tally[at] != 0 {
        return false;
    }
    tally[at] = NOTED;
    true
}

// Notes each address of the region among the slots.
fn note_slots(slots: &[u16; 64], region: &Region, tally: &mut [u8])
    requires { region.now.to ≤ length tally.old }
    ensures { Adds region.now slots.now tally.old tally.new }
{
    for a in slots {
        note(*a, region, tally);
    }
}
