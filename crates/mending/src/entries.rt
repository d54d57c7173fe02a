// The entries: the form that each is mended to, and the lowest that does not show it.
ghost use Rattle.std.specs.Prelude.{◌≡◌, ℕ, ◌+◌, ◌<◌, ◌≤◌, List, [], ◌++◌, length};
ghost use Rattle.std.specs.Option.{option_copied, unwrap_or};
ghost use Rattle.drive.specs.Meaning.{shown};
ghost use Rattle.mending.specs.Sought.{pages_of, form_of, unless_shown, unmended_in, unmended_of};
ghost use Rattle.mending.specs.Tallies.{Tallies, Adds};
ghost use Rattle.model.specs.Mending.{mended_slots, mended};
ghost use Rattle.record.specs.Entries.{whole_entry};

use crate::shows::shows;
use crate::tally::{clear, note};
use crate::unmended::Unmended;
use drive::device::Drive;
use reading::layout::{FIRST_ENTRY, SUM_START};
use reading::shown::{Records, read_shown};
use record::control::RECORD;
use record::entry::Entry;
use record::region::Region;

// The lowest entry that does not show its mended form.
pub(crate) fn first_unmended<D: Drive>(
    records: &Records<D>,
    page: &mut [u8; RECORD],
    tally: &mut [u8],
) -> Option<Unmended>
    requires { records.now.label.records ≤ length tally.old }
    ensures { unmended_of result ≡ unmended_in records.now.label (shown (D.meaning records.now.drive.now)) }
{
    clear(tally);
    // A loop: find_map's closure would change the tally, of which a proof then knows nothing.
    for i in 0..records.label.entries {
        if let Some(form) = unmended_form(records, i, page, tally) {
            return Some(Unmended { number: i, form });
        }
    }
    None
}

// The mended form of entry `i`, where its record does not show it. What the form keeps is noted.
fn unmended_form<D: Drive>(
    records: &Records<D>,
    i: u16,
    page: &mut [u8; RECORD],
    tally: &mut [u8],
) -> Option<Entry>
    requires numbered { i < 3968 }
    requires inside { records.now.label.records ≤ length tally.old }
    ensures form { (kept : List ℕ) → Tallies (pages_of records.now.label) tally.old kept → result ≡ unless_shown records.now.label (shown (D.meaning records.now.drive.now) (8 + i)) (form_of records.now.label kept (shown (D.meaning records.now.drive.now) (8 + i))) }
    ensures tally { (kept : List ℕ) → Tallies (pages_of records.now.label) tally.old kept → Tallies (pages_of records.now.label) tally.new ((form_of records.now.label kept (shown (D.meaning records.now.drive.now) (8 + i))).slots ++ kept) }
{
    let id = records.label.id;
    let shown = read_shown(records.drive, FIRST_ENTRY + i, page);
    let form = mended_form(whole_entry(shown, id), &records.region(), tally);
    let mut bytes = [0; RECORD];
    form.encode(SUM_START, id, &mut bytes);
    if shows(shown, &bytes) {
        return None;
    }
    Some(form)
}

// The whole entry of a record that could be read.
fn whole_entry(shown: Option<&[u8; RECORD]>, id: u32) -> Option<Entry>
    ensures { result ≡ whole_entry 0 id (unwrap_or (option_copied shown.entry) []) }
{
    Entry::decode_whole(shown?, SUM_START, id)
}

// The mended form of a whole entry, or of a record that is none. What the form keeps is noted.
fn mended_form(whole: Option<Entry>, region: &Region, tally: &mut [u8]) -> Entry
    requires inside { region.now.to ≤ length tally.old }
    requires past { 0 < region.now.from }
    ensures form { (kept : List ℕ) → Tallies region.now tally.old kept → result ≡ mended region.now kept whole }
    ensures tally { Adds region.now result.slots tally.old tally.new }
{
    match whole {
        Some(entry) if !entry.is_free() => Entry {
            meter: entry.meter,
            slots: mend_slots(&entry.slots, region, tally),
        },
        _ => Entry::free(),
    }
}

// The slots of a mended entry: each address of the region that is not noted yet stays, and is noted.
fn mend_slots(slots: &[u16; 64], region: &Region, tally: &mut [u8]) -> [u16; 64]
    requires inside { region.now.to ≤ length tally.old }
    requires past { 0 < region.now.from }
    ensures form { (kept : List ℕ) → Tallies region.now tally.old kept → result ≡ mended_slots region.now kept slots.now }
    ensures tally { Adds region.now result tally.old tally.new }
{
    let mut mended = [0; 64];
    // A loop: map's closure would change the tally, of which a proof then knows nothing.
    for (p, a) in slots.iter().enumerate() {
        if note(*a, region, tally) {
            mended[p] = *a;
        }
    }
    mended
}
