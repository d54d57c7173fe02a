// The lines of a technician's report, as every program prints them.
ghost use Rattle.std.specs.Prelude.{◌≡◌, ◌-◌};

use crate::{entries_unsound, records_free, writes_spent};
use record::label::Label;
use std::fmt;
use surveys::survey::{SectionFigures, Survey};

// What the label says.
#[derive(Clone, Copy)]
pub struct LabelLines(pub Label);

// The map: a line for each section, and how many records are free on all of them.
#[derive(Clone, Copy)]
pub struct MapLines<'a>(pub &'a Survey);

// How many entries are free, and how many do not show sound.
#[derive(Clone, Copy)]
pub struct EntryLines<'a>(pub &'a Survey);

// How many writes a drive has spent, and how many it has left.
#[derive(Clone, Copy)]
pub struct Wear {
    pub spent: u32,
    pub left: u32,
}

// A section with its number.
#[derive(Clone, Copy)]
struct SectionLine(usize, SectionFigures);

impl Wear {
    // Between two readings of the life left.
    pub fn between(before: u32, after: u32) -> Wear
        ensures spent { result.spent ≡ before - after }
        ensures left { result.left ≡ after }
    {
        Wear {
            spent: writes_spent(before, after),
            left: after,
        }
    }
}

impl fmt::Display for LabelLines {
    fn fmt<W: fmt::Write>(&self, f: &mut fmt::Formatter<W>) -> fmt::Result {
        let label = self.0;
        writeln!(f, "volume          {}", label.id)?;
        writeln!(f, "records         {}", label.records)?;
        writeln!(f, "entries         {}", label.entries)?;
        writeln!(f, "state           {}", label.state)?;
        writeln!(f, "trouble         {}", label.trouble)
    }
}

impl fmt::Display for SectionLine {
    fn fmt<W: fmt::Write>(&self, f: &mut fmt::Formatter<W>) -> fmt::Result {
        let SectionLine(k, section) = *self;
        match section.free {
            None => writeln!(f, "map section {k}   not sound, counts as none free"),
            Some(free) => writeln!(
                f,
                "map section {k}   {} addresses, {free} free",
                section.covered
            ),
        }
    }
}

impl fmt::Display for MapLines<'_> {
    fn fmt<W: fmt::Write>(&self, f: &mut fmt::Formatter<W>) -> fmt::Result {
        for (k, section) in self.0.sections.iter().enumerate() {
            write!(f, "{}", SectionLine(k, *section))?;
        }
        writeln!(f, "records free    {}", records_free(self.0))
    }
}

impl fmt::Display for EntryLines<'_> {
    fn fmt<W: fmt::Write>(&self, f: &mut fmt::Formatter<W>) -> fmt::Result {
        writeln!(f, "entries free    {}", self.0.free_entries)?;
        writeln!(f, "entries broken  {}", entries_unsound(self.0))
    }
}

impl fmt::Display for Wear {
    fn fmt<W: fmt::Write>(&self, f: &mut fmt::Formatter<W>) -> fmt::Result {
        writeln!(f, "writes spent    {}", self.spent)?;
        writeln!(f, "life left       {}", self.left)
    }
}
