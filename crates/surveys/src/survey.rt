// A look at a volume on a drive: its label, its map and its entries, as they show. Nothing is posted.
ghost use Rattle.std.specs.Prelude.{◌≡◌, ◌≤◌, length, replicate};
ghost use Rattle.drive.specs.Faults.{said};
ghost use Rattle.surveys.specs.Surveys.{survey_answer, survey_of, figures_of, entries_that, is_free_entry, addresses_in, pages_named};
ghost use Rattle.std.specs.Option.{is_some};

use drive::device::Drive;
use drive::fault::Fault;
use reading::shown::Records;
use reading::work::{Work, ask_page};
use record::control::RECORD;
use record::label::Label;

// A map section: how many of the addresses that it covers exist, and how many are free, where it is sound.
#[derive(Clone, Copy, Debug)]
pub struct SectionFigures {
    pub covered: u32,
    pub free: Option<u32>,
}

#[derive(Drop)]
pub struct Survey {
    pub label: Label,
    pub sections: [SectionFigures; 3],
    pub free_entries: u16,
    pub sound_entries: u16,
    pub named_pages: u32,
}

// Looks at the volume. The page comes back zero.
pub fn look<D: Drive>(drive: &D, page: &mut [u8]) -> Result<Survey, Fault>
    ensures answer { said result ≡ survey_answer (D.meaning drive.now) (length page.old) }
    ensures zero { page.new ≡ replicate (length page.old) 0 }
{
    let work = Work(page);
    let record = ask_page(&mut *work.0)?;
    let records = Records::believed(drive, record)?;
    Ok(survey_of(&records, record))
}

fn survey_of<D: Drive>(records: &Records<D>, page: &mut [u8; RECORD]) -> Survey
    ensures { result ≡ survey_of (D.meaning records.now.drive.now) records.now.label }
{
    let sections = [0, 1, 2].map(|k| section_figures(records, k, page));
    let counts = count_entries(records, page);
    Survey {
        label: records.label,
        sections,
        free_entries: counts.free,
        sound_entries: counts.sound,
        named_pages: counts.named,
    }
}

fn section_figures<D: Drive>(records: &Records<D>, k: u8, page: &mut [u8; RECORD]) -> SectionFigures
    ensures { result ≡ figures_of (D.meaning records.now.drive.now) records.now.label k }
{
    SectionFigures {
        covered: records.span(k).covered,
        free: records.section(k, page).map(|section| section.count()),
    }
}

// How many entries show free, how many show sound, and how many pages the sound ones name.
#[derive(Clone, Copy)]
struct EntryCounts {
    free: u16,
    sound: u16,
    named: u32,
}

fn count_entries<D: Drive>(records: &Records<D>, page: &mut [u8; RECORD]) -> EntryCounts
    ensures free { result.free ≡ entries_that is_free_entry (D.meaning records.now.drive.now) records.now.label records.now.label.entries }
    ensures sound { result.sound ≡ entries_that is_some (D.meaning records.now.drive.now) records.now.label records.now.label.entries }
    ensures named { result.named ≡ pages_named (D.meaning records.now.drive.now) records.now.label records.now.label.entries }
{
    let mut counts = EntryCounts {
        free: 0,
        sound: 0,
        named: 0,
    };
    for i in 0..records.label.entries {
        let Some(entry) = records.entry(i, page) else {
            continue;
        };
        counts.sound += 1;
        counts.free += u16::from(entry.is_free());
        counts.named += count_addresses(&entry.slots);
    }
    counts
}

// How many slots hold an address.
fn count_addresses(slots: &[u16; 64]) -> u32
    ensures value { result ≡ addresses_in slots.now }
    ensures bound { result ≤ 64 }
{
    // A loop: as a chain, filter and count take three times the instructions.
    let mut count = 0u32;
    for a in slots {
        if *a != 0 {
            count += 1;
        }
    }
    count
}
