// What a technician reads of a volume.
use figures::report::{EntryLines, LabelLines, MapLines, Wear};
use figures::{
    entries_unsound, page_records, pages_adrift, pages_stored, records_free, writes_per_page,
};
use std::fmt;
use surveys::survey::Survey;

// The volume as it shows, and what its drive has spent: the collector's report, and in it how many pages are named.
#[derive(Drop)]
pub struct Report<'a> {
    pub survey: &'a Survey,
    pub wear: Wear,
}

// The volume as it shows, in short.
#[derive(Drop)]
pub struct Glance<'a> {
    pub survey: &'a Survey,
}

// What an evening brought: the pages stored, and the writes spent on each, in hundredths.
#[derive(Drop)]
pub struct Evening {
    stored: u32,
    hundredths: u64,
}

impl Evening {
    // From what was seen before and after it, and its wear.
    pub fn of(fresh: &Survey, seen: &Survey, wear: Wear) -> Evening {
        let stored = pages_stored(fresh, seen);
        Evening {
            stored,
            hundredths: writes_per_page(wear.spent, stored),
        }
    }
}

impl fmt::Display for Report<'_> {
    fn fmt<W: fmt::Write>(&self, f: &mut fmt::Formatter<W>) -> fmt::Result {
        let survey = self.survey;
        write!(f, "{}{}", LabelLines(survey.label), MapLines(survey))?;
        writeln!(f, "pages named     {}", survey.named_pages)?;
        write!(f, "{}{}", EntryLines(survey), self.wear)
    }
}

impl fmt::Display for Glance<'_> {
    fn fmt<W: fmt::Write>(&self, f: &mut fmt::Formatter<W>) -> fmt::Result {
        let survey = self.survey;
        let state = survey.label.state;
        let trouble = survey.label.trouble;
        writeln!(f, "look            {state}, trouble {trouble}")?;
        glance_entries(survey, f)?;
        glance_pages(survey, f)
    }
}

fn glance_entries<W: fmt::Write>(survey: &Survey, f: &mut fmt::Formatter<W>) -> fmt::Result {
    let sound = survey.sound_entries;
    let free = survey.free_entries;
    let broken = entries_unsound(survey);
    writeln!(
        f,
        "  entries       {sound} sound, {free} of them free; {broken} broken"
    )
}

fn glance_pages<W: fmt::Write>(survey: &Survey, f: &mut fmt::Formatter<W>) -> fmt::Result {
    let all = page_records(survey);
    let named = survey.named_pages;
    let free = records_free(survey);
    let adrift = pages_adrift(survey);
    writeln!(
        f,
        "  page records  {all}: {named} named, {free} free, {adrift} neither"
    )
}

impl fmt::Display for Evening {
    fn fmt<W: fmt::Write>(&self, f: &mut fmt::Formatter<W>) -> fmt::Result {
        let whole = self.hundredths / 100;
        let rest = self.hundredths % 100;
        writeln!(f, "pages stored    {}", self.stored)?;
        writeln!(f, "writes a page   {whole}.{rest:02}")
    }
}
