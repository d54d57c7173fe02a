// Making a new volume on a bare drive.
ghost use Rattle.std.specs.Prelude.{◌≡◌, ◌+◌, ◌≤◌, true, [], ◌∷◌, length, replicate, Ok, IfOk};
ghost use Rattle.drive.specs.Faults.{said};
ghost use Rattle.drive.specs.Meaning.{size};
ghost use Rattle.model.specs.New.{entry_write, section_write, writes_of, new_writes, written, make_answer, after_make};
ghost use Rattle.model.specs.PowerCuts.{LeavesAVolumeNoPowerCutHarms};
ghost use Rattle.model.specs.Volume.{label_bytes};
ghost use Rattle.reading.specs.Told.{told_with};
ghost use Rattle.record.specs.Regions.{in_limits};

use crate::through::{complete_all, write_next};
use drive::device::Drive;
use drive::fault::{Fault, Question};
use reading::layout::{FIRST_ENTRY, FIRST_SECTION, LABEL, LABEL_COPY, SECTIONS, SUM_START};
use reading::work::{Work, ask_page};
use record::control::RECORD;
use record::entry::Entry;
use record::label::{Label, LabelState};
use record::region::{Span, in_limits};
use record::section::Section;

// The writes of a new volume besides its entries: the map, the label and its copy.
const FIXED_WRITES: u32 = 5;

// Makes a new volume: its entries free, its whole page region free, its label closed. The drive's size is the
// number of records. A refusal changes nothing; the page comes back zero.
pub fn make<D: Drive>(drive: &mut D, id: u32, entries: u16, page: &mut [u8]) -> Result<(), Fault>
    ensures answer { said result ≡ make_answer D.Of.LIFE (D.meaning drive.old) id entries (length page.old) }
    ensures after { D.meaning drive.new ≡ after_make result (D.meaning drive.old) id entries }
    ensures zero { page.new ≡ replicate (length page.old) 0 }
    ensures unharmed { LeavesAVolumeNoPowerCutHarms result (record { depth = D.Of.DEPTH; life = D.Of.LIFE }) id entries (D.meaning drive.new) }
{
    let work = Work(page);
    let record = ask_make(drive, id, entries, &mut *work.0)?;
    complete_all(drive);
    write_volume(drive, id, entries, record)?;
    Ok(())
}

// The questions of make, before anything is stepped or written. The page is lent as an array.
fn ask_make<'p, D: Drive>(
    drive: &D,
    id: u32,
    entries: u16,
    page: &'p mut [u8],
) -> Result<&'p mut [u8; RECORD], Fault>
    ensures answer { told_with (λ _. tt) result ≡ make_answer D.Of.LIFE (D.meaning drive.now) id entries (length page.old) }
    ensures bytes { IfOk result (λ lent. lent.now ≡ page.old) }
{
    let record = ask_page(page)?;
    Question::Limits.ask(in_limits(id, u32::from(entries), drive.size()))?;
    if drive.left() < u32::from(entries) + FIXED_WRITES {
        return Err(Question::Life.at(FIRST_ENTRY));
    }
    Ok(record)
}

// Posts exactly the writes of a new volume, one after the other, each completed before the next. That nothing is
// outstanding is asked here and in what follows: it is a fact of a moment, and each write makes it anew. No fault comes
// (`accepted`), and the writes read as any other post, by `?`.
fn write_volume<D: Drive>(
    drive: &mut D,
    id: u32,
    entries: u16,
    page: &mut [u8; RECORD],
) -> Result<(), Fault>
    requires sized { in_limits id entries (size (D.meaning drive.old)) ≡ true }
    requires quiet { (D.meaning drive.old).outstanding ≡ [] }
    requires alive { (D.meaning drive.old).wear + (entries + 5) ≤ D.Of.LIFE }
    ensures accepted { result ≡ Ok tt }
    ensures after { D.meaning drive.new ≡ written (new_writes id entries (size (D.meaning drive.old))) (D.meaning drive.old) }
{
    let label = Label {
        id,
        records: drive.size() as u16,
        entries,
        state: LabelState::Closed,
        trouble: 0,
    };
    write_entries(drive, &label, page)?;
    write_map(drive, &label, page)?;
    write_labels(drive, &label, page)
}

// Writes the free entries.
fn write_entries<D: Drive>(
    drive: &mut D,
    label: &Label,
    page: &mut [u8; RECORD],
) -> Result<(), Fault>
    requires inside { 8 + label.now.entries ≤ size (D.meaning drive.old) }
    requires small { label.now.entries ≤ 3968 }
    requires quiet { (D.meaning drive.old).outstanding ≡ [] }
    requires alive { (D.meaning drive.old).wear + label.now.entries ≤ D.Of.LIFE }
    ensures accepted { result ≡ Ok tt }
    ensures after { D.meaning drive.new ≡ written (writes_of (entry_write label.now.id) label.now.entries) (D.meaning drive.old) }
{
    Entry::free().encode(SUM_START, label.id, page);
    for i in 0..label.entries {
        write_next(drive, FIRST_ENTRY + i, page)?;
    }
    Ok(())
}

// Writes the map, with the whole page region free.
fn write_map<D: Drive>(drive: &mut D, label: &Label, page: &mut [u8; RECORD]) -> Result<(), Fault>
    requires inside { 8 ≤ size (D.meaning drive.old) }
    requires quiet { (D.meaning drive.old).outstanding ≡ [] }
    requires alive { (D.meaning drive.old).wear + 3 ≤ D.Of.LIFE }
    ensures accepted { result ≡ Ok tt }
    ensures after { D.meaning drive.new ≡ written (writes_of (section_write label.now.id label.now.entries label.now.records) 3) (D.meaning drive.old) }
{
    for k in 0..SECTIONS {
        let span = Span::of_map(k, label.entries, label.records);
        Section::all_free(&span).encode(SUM_START, label.id, &span, page);
        write_next(drive, FIRST_SECTION + u16::from(k), page)?;
    }
    Ok(())
}

// Writes the label's copy and the label.
fn write_labels<D: Drive>(
    drive: &mut D,
    label: &Label,
    page: &mut [u8; RECORD],
) -> Result<(), Fault>
    requires inside { 8 ≤ size (D.meaning drive.old) }
    requires quiet { (D.meaning drive.old).outstanding ≡ [] }
    requires alive { (D.meaning drive.old).wear + 2 ≤ D.Of.LIFE }
    ensures accepted { result ≡ Ok tt }
    ensures after { D.meaning drive.new ≡ written (record { at = 7; bytes = label_bytes label.now } ∷ record { at = 0; bytes = label_bytes label.now } ∷ []) (D.meaning drive.old) }
{
    label.encode(SUM_START, page);
    write_next(drive, LABEL_COPY, page)?;
    write_next(drive, LABEL, page)
}
