// The questions and the moves of entries: which one a file may take, and the slots of a file. An entry goes by its number,
// as in the plans; who calls has just put the question that bounds it.
ghost use Rattle.std.specs.Prelude.{◌≡◌, ◌+◌, ◌<◌, not, ◌&&◌, map, OnOk, ◌==◌, nat_lt};
ghost use Rattle.std.specs.List.{list_any};
ghost use Rattle.drive.specs.Faults.{said};
ghost use Rattle.memory.specs.Slots.{slot_changed};
ghost use Rattle.model.specs.Carried.{asked, or_refused, or_refused_at};
ghost use Rattle.model.specs.Memory.{is_entry, in_some_file};
ghost use Rattle.model.specs.Plans.{slot_of, and_then, empty_slot, entry_when, is_free};
ghost use Rattle.model.specs.Slots.{with_slot, page_of, cleared, left_address, live_address, loaded, all_at_rest};

use drive::fault::{Fault, Question};
use model::memory::{File, Slot};
use record::entry::Entry;
use record::region::FIRST_ENTRY;
use std::array;

// Is the entry number below the number of entries, and in no file?
#[tactic(auto, using(crate::proofs::TableLaws::in_some))]
pub fn ask_number(files: &[Option<File>; 8], entries: u16, number: u16) -> Result<(), Fault>
    ensures taken { said result ≡ asked 7 (nat_lt number entries && not (in_some_file files.now number)) }
    ensures below { OnOk result (number < entries) }
{
    if number >= entries || is_in_some_file(files, number) {
        return Err(Question::EntryNumber.refused());
    }
    Ok(())
}

fn is_in_some_file(files: &[Option<File>], number: u16) -> bool
    ensures { result ≡ list_any (λ f. is_entry f number) files.now }
{
    files
        .iter()
        .any(|file| matches!(file, Some(used) if used.entry == number))
}

// Is the meter number not 0?
pub fn ask_meter(meter: u32) -> Result<(), Fault>
    ensures { said result ≡ asked 8 (not (meter == 0)) }
{
    Question::Meter.ask(meter != 0)
}

// Does entry `number` show sound and free?
pub fn ask_free(shown: Option<Entry>, number: u16) -> Result<Entry, Fault>
    requires { number < 3968 }
    ensures { said result ≡ or_refused_at 9 (8 + number) (entry_when is_free shown) }
{
    ask_shown(shown.filter(|entry| entry.is_free()), number)
}

// Does entry `number` show sound, with a meter?
pub fn ask_metered(shown: Option<Entry>, number: u16) -> Result<Entry, Fault>
    requires { number < 3968 }
    ensures { said result ≡ or_refused_at 9 (8 + number) (entry_when (λ x. not (is_free x)) shown) }
{
    ask_shown(shown.filter(|entry| !entry.is_free()), number)
}

// The entry where it shows as the call wants.
fn ask_shown(wanted: Option<Entry>, number: u16) -> Result<Entry, Fault>
    requires { number < 3968 }
    ensures { said result ≡ or_refused_at 9 (8 + number) wanted }
{
    wanted.ok_or(Question::EntryShown.at(FIRST_ENTRY + number))
}

// The slot, where the file has it.
fn slot_of(file: &File, slot: usize) -> Option<Slot>
    ensures { result ≡ slot_of file.now slot }
{
    file.slots.get(slot).copied()
}

// Is the slot Empty?
pub fn ask_empty(file: &File, slot: usize) -> Result<(), Fault>
    ensures { said result ≡ or_refused 10 (and_then (slot_of file.now slot) empty_slot) }
{
    let Some(Slot::Empty) = slot_of(file, slot) else {
        return Err(Question::Slot.refused());
    };
    Ok(())
}

// The address of the slot's page, where that is Nulled or Live.
pub fn page_of(file: &File, slot: usize) -> Result<u16, Fault>
    ensures { said result ≡ or_refused 10 (and_then (slot_of file.now slot) page_of) }
{
    match slot_of(file, slot) {
        Some(Slot::Nulled(a) | Slot::Live(a)) => Ok(a),
        _ => Err(Question::Slot.refused()),
    }
}

// The address of a slot that is Left.
pub fn left_address(file: &File, slot: usize) -> Result<u16, Fault>
    ensures { said result ≡ or_refused 10 (and_then (slot_of file.now slot) left_address) }
{
    let Some(Slot::Left(a)) = slot_of(file, slot) else {
        return Err(Question::Slot.refused());
    };
    Ok(a)
}

// A Live page is Leaving from now on, a Nulled one has Left.
pub fn clear(file: &mut File, slot: usize) -> Result<(), Fault>
    ensures changed { (said result, file.new) ≡ slot_changed file.old slot (and_then (slot_of file.old slot) cleared) }
    ensures kept { file.new.entry ≡ file.old.entry }
{
    let moved = match slot_of(file, slot) {
        Some(Slot::Live(a)) => Slot::Leaving(a),
        Some(Slot::Nulled(a)) => Slot::Left(a),
        _ => return Err(Question::Slot.refused()),
    };
    file.slots[slot] = moved;
    Ok(())
}

// Puts the slot into another case.
pub fn put(file: &mut File, slot: usize, moved: Slot)
    requires { slot < 64 }
    ensures { file.new ≡ with_slot file.old slot moved }
{
    file.slots[slot] = moved;
}

// Each slot is Empty or Live.
pub fn are_at_rest(slots: &[Slot]) -> bool
    ensures { result ≡ all_at_rest slots.now }
{
    slots
        .iter()
        .all(|slot| matches!(slot, Slot::Empty | Slot::Live(_)))
}

// The slots of a file that takes the entry: each address is Live.
pub fn load(shown: &Entry) -> [Slot; 64]
    ensures { result ≡ map loaded shown.now.slots }
{
    array::from_fn(|p| loaded(shown.slots[p]))
}

// What a slot is loaded as. No `From<u16>`: a number is a slot only where an entry has it.
fn loaded(a: u16) -> Slot
    ensures { result ≡ loaded a }
{
    match a {
        0 => Slot::Empty,
        _ => Slot::Live(a),
    }
}

// The entry that names the pages of just the Live slots.
pub fn naming_live(meter: u32, slots: &[Slot; 64]) -> Entry
    ensures { result ≡ record { meter = meter; slots = map live_address slots.now } }
{
    Entry {
        meter,
        slots: array::from_fn(|p| live_address(slots[p])),
    }
}

// What an entry has for a slot. No `From<Slot>`: it forgets the slot's case.
fn live_address(slot: Slot) -> u16
    ensures { result ≡ live_address slot }
{
    match slot {
        Slot::Live(a) => a,
        _ => 0,
    }
}
