// The figures of a report, from what a look at a volume shows.
#![tactic(auto)]

pub mod report;

ghost use Rattle.std.specs.Prelude.{◌≡◌, ◌-◌, ◌^◌, ◌<◌, sum_by};
ghost use Rattle.figures.specs.Figures.{section_free, records_free, entries_unsound, page_records, pages_adrift, pages_stored, hundredths};

use record::region::FIRST_ENTRY;
use surveys::survey::{SectionFigures, Survey};

// How many records one section counts as free: none where it is not sound.
fn section_free(section: &SectionFigures) -> u64
    ensures value { result ≡ section_free section.now }
    ensures bound { result < 2 ^ 32 }
{
    u64::from(section.free.unwrap_or(0))
}

// How many records are free on the map.
pub fn records_free(survey: &Survey) -> u64
    ensures { result ≡ records_free survey.now }
{
    free_in(&survey.sections)
}

// How many records the sections count as free.
fn free_in(sections: &[SectionFigures; 3]) -> u64
    ensures { result ≡ sum_by section_free sections.now }
{
    sections.iter().map(section_free).sum()
}

// How many entries do not show sound.
pub fn entries_unsound(survey: &Survey) -> u16
    ensures { result ≡ entries_unsound survey.now }
{
    survey.label.entries.saturating_sub(survey.sound_entries)
}

// How many writes were spent between two readings of the life left.
pub fn writes_spent(before: u32, after: u32) -> u32
    ensures { result ≡ before - after }
{
    before.saturating_sub(after)
}

// How many records the volume has for pages: all but those before the entries, and the entries.
pub fn page_records(survey: &Survey) -> u16
    ensures { result ≡ page_records survey.now }
{
    let rest = survey.label.records.saturating_sub(FIRST_ENTRY);
    rest.saturating_sub(survey.label.entries)
}

// How many page records are neither named by an entry nor free on the map.
pub fn pages_adrift(survey: &Survey) -> u64
    ensures { result ≡ pages_adrift survey.now }
{
    let all = u64::from(page_records(survey));
    let unnamed = all.saturating_sub(u64::from(survey.named_pages));
    unnamed.saturating_sub(records_free(survey))
}

// How many pages the entries name that they did not name before.
pub fn pages_stored(before: &Survey, after: &Survey) -> u32
    ensures { result ≡ pages_stored before.now after.now }
{
    after.named_pages.saturating_sub(before.named_pages)
}

// How many writes were spent on each page, in hundredths, rounded down; 0 where no page was stored.
pub fn writes_per_page(spent: u32, pages: u32) -> u64
    ensures { result ≡ hundredths spent pages }
{
    if pages == 0 {
        return 0;
    }
    u64::from(spent) * 100 / u64::from(pages)
}
