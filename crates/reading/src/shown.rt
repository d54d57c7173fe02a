// What the control records of a volume show.
ghost use Rattle.std.specs.Prelude.{◌≡◌, ◌+◌, ◌<◌, ◌≤◌, [], IfOk};
ghost use Rattle.std.specs.Option.{option_copied, unwrap_or};
ghost use Rattle.record.specs.Regions.{page_region, map_span};
ghost use Rattle.drive.specs.Meaning.{size, shown};
ghost use Rattle.model.specs.Carried.{or_refused};
ghost use Rattle.model.specs.Shown.{bytes_in, label_in_state, label_shown, section_in_state, entry_in_state};
ghost use Rattle.reading.specs.Told.{told_with};

use crate::layout::{FIRST_ENTRY, FIRST_SECTION, LABEL, LABEL_COPY, SUM_START};
use drive::device::Drive;
use drive::fault::{Fault, Question};
use record::control::RECORD;
use record::entry::Entry;
use record::label::{Label, LabelState};
use record::region::{Region, Span};
use record::section::Section;

// The bytes of a record, read into the page; none where it cannot be read, or is past the end of the drive.
pub fn read_shown<'p, D: Drive>(
    drive: &D,
    at: u16,
    page: &'p mut [u8; RECORD],
) -> Option<&'p [u8; RECORD]>
    ensures { bytes_in (shown (D.meaning drive.now) at) ≡ unwrap_or (option_copied result) [] }
{
    drive.read(at, page).ok()?;
    Some(page)
}

// The label that one record is believed to be.
pub fn label_at<D: Drive>(drive: &D, at: u16, page: &mut [u8; RECORD]) -> Option<Label>
    ensures { result ≡ label_in_state (size (D.meaning drive.now)) (shown (D.meaning drive.now) at) }
{
    Label::decode(read_shown(drive, at, page)?, SUM_START, drive.size())
}

// The label that is believed: record 0, or else its copy, whose state counts as in use.
fn believed_label<D: Drive>(drive: &D, page: &mut [u8; RECORD]) -> Option<Label>
    ensures { result ≡ label_shown (D.meaning drive.now) }
{
    if let Some(label) = label_at(drive, LABEL, page) {
        return Some(label);
    }
    let copy = label_at(drive, LABEL_COPY, page)?;
    Some(Label {
        state: LabelState::InUse,
        ..copy
    })
}

// The control records of a volume: the drive that they lie on, and the label that they are read under.
#[derive(Drop)]
pub struct Records<'a, D: Drive> {
    pub drive: &'a D,
    pub label: Label,
    ghost few: { label.entries ≤ 3968 },
    ghost sized: { label.records ≡ size (D.meaning drive.now) },
}

impl<'a, D: Drive> Records<'a, D> {
    // Is a label believed? Its records are read under it.
    pub fn believed(drive: &'a D, page: &mut [u8; RECORD]) -> Result<Records<'a, D>, Fault>
        ensures label { told_with (λ r. r.label) result ≡ or_refused 3 (label_shown (D.meaning drive.now)) }
        ensures same { IfOk result (λ r. r.drive.now ≡ drive.now) }
    {
        let label = believed_label(drive, page).ok_or(Question::Believed.refused())?;
        Ok(Records { drive, label })
    }

    // Map section `k`, where it is sound.
    pub fn section(&self, k: u8, page: &mut [u8; RECORD]) -> Option<Section>
        ensures { result ≡ section_in_state self.now.label.id self.now.label.entries self.now.label.records k (shown (D.meaning self.now.drive.now) (1 + k)) }
    {
        let shown = read_shown(self.drive, FIRST_SECTION + u16::from(k), page)?;
        Section::decode(shown, SUM_START, self.label.id, &self.span(k))
    }

    // What section `k` of the map covers.
    pub fn span(&self, k: u8) -> Span
        ensures { result ≡ map_span k self.now.label.entries self.now.label.records }
    {
        Span::of_map(k, self.label.entries, self.label.records)
    }

    // Entry `i`, where it is sound: a number, as in the plans, that the label's limits allow.
    pub fn entry(&self, i: u16, page: &mut [u8; RECORD]) -> Option<Entry>
        requires { i < 3968 }
        ensures { result ≡ entry_in_state self.now.label.id self.now.label.entries self.now.label.records (shown (D.meaning self.now.drive.now) (8 + i)) }
    {
        let shown = read_shown(self.drive, FIRST_ENTRY + i, page)?;
        Entry::decode(shown, SUM_START, self.label.id, &self.region())
    }

    // The records that hold pages.
    pub fn region(&self) -> Region
        ensures { result ≡ page_region self.now.label.entries self.now.label.records }
    {
        Region::of_pages(self.label.entries, self.label.records)
    }
}
