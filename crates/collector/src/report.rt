// What a technician reads of a volume.
use figures::report::{EntryLines, LabelLines, MapLines, Wear};
use std::fmt;
use surveys::survey::Survey;

// The volume as it shows, and what its drive has spent.
#[derive(Drop)]
pub struct Report<'a> {
    pub survey: &'a Survey,
    pub wear: Wear,
}

impl fmt::Display for Report<'_> {
    fn fmt<W: fmt::Write>(&self, f: &mut fmt::Formatter<W>) -> fmt::Result {
        let survey = self.survey;
        write!(f, "{}{}", LabelLines(survey.label), MapLines(survey))?;
        write!(f, "{}{}", EntryLines(survey), self.wear)
    }
}
