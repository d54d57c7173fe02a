// A label: what a volume is, and in which state it was left.
ghost use Rattle.std.specs.Prelude.{◌≡◌, ◌^◌, ◌<◌, Some};
ghost use Rattle.std.specs.List.{between};
ghost use Rattle.record.specs.Words.{same};
ghost use Rattle.record.specs.Labels.{state_number, numbered_state, state_name, label_text, with_text, with_numbers, label_record, label_numbers_right, label_laid_out, believed_label};

use crate::control::{is_whole, seal};
use crate::region::in_limits;
use crate::words::{clear, get_word, put_word, zero_between};
use std::fmt;

// The fixed text of a label, in words 2 to 5.
const TEXT: &[u8; 16] = b"METER READ STORE";

const VERSION: u32 = 1;

#[derive(Clone, Copy, PartialEq, Eq, Debug)]
pub enum LabelState {
    Closed = 0,
    InUse = 1,
    Salvage = 2,
}

impl From<LabelState> for u32 {
    ghost from_gives = { λ state n. n ≡ state_number state };

    fn from(state: LabelState) -> u32 {
        state as u32
    }
}

// The state with this number; any number above 1 counts as 2.
impl From<u32> for LabelState {
    ghost from_gives = { λ n state. state ≡ numbered_state n };

    fn from(n: u32) -> LabelState {
        match n {
            0 => LabelState::Closed,
            1 => LabelState::InUse,
            _ => LabelState::Salvage,
        }
    }
}

impl fmt::Display for LabelState {
    ghost output = { λ state. Some (state_name state) };

    fn fmt<W: fmt::Write>(&self, f: &mut fmt::Formatter<W>) -> fmt::Result {
        f.write_str(match self {
            LabelState::Closed => "closed",
            LabelState::InUse => "in use",
            LabelState::Salvage => "salvage begun",
        })
    }
}

#[derive(Clone, Copy, PartialEq, Eq, Debug)]
pub struct Label {
    pub id: u32,
    pub records: u16,
    pub entries: u16,
    pub state: LabelState,
    pub trouble: u32,
}

impl Label {
    // Writes the label over the whole page.
    pub fn encode(&self, start: u32, page: &mut [u8; 512])
        ensures { page.new ≡ label_record start self.now }
    {
        clear(page);
        put_word(page, 0, self.id);
        put_text(page);
        self.put_numbers(page);
        seal(page, start);
    }

    // Writes the version and the label's numbers into words 6 to 10.
    fn put_numbers(&self, page: &mut [u8; 512])
        ensures bytes { page.new ≡ with_numbers self.now page.old }
        ensures fit { (self.now.records < 2 ^ 16) × ((self.now.entries < 2 ^ 16) × (self.now.trouble < 2 ^ 32)) }
    {
        put_word(page, 6, VERSION);
        put_word(page, 7, u32::from(self.records));
        put_word(page, 8, u32::from(self.entries));
        put_word(page, 9, u32::from(self.state));
        put_word(page, 10, self.trouble);
    }

    // The label that is believed of a page, on a drive of `size` records.
    pub fn decode(page: &[u8], start: u32, size: usize) -> Option<Label>
        ensures { result ≡ believed_label start size page.now }
    {
        let page = page.as_array::<512>()?;
        if !is_whole(page, start, get_word(page, 0)) || !is_laid_out(page, size) {
            return None;
        }
        Some(Label {
            id: get_word(page, 0),
            records: get_word(page, 7) as u16,
            entries: get_word(page, 8) as u16,
            state: LabelState::from(get_word(page, 9)),
            trouble: get_word(page, 10),
        })
    }
}

// Writes the fixed text into its place.
fn put_text(page: &mut [u8; 512])
    ensures { page.new ≡ with_text page.old }
{
    page[8..24].copy_from_slice(TEXT);
}

fn has_text(page: &[u8; 512]) -> bool
    ensures { result ≡ same (between 8 24 page.now) label_text }
{
    &page[8..24] == TEXT.as_slice()
}

// The version, the numbers of records and of entries, and the state are right.
fn has_right_numbers(page: &[u8; 512], size: usize) -> bool
    ensures { result ≡ label_numbers_right size page.now }
{
    get_word(page, 6) == VERSION
        && get_word(page, 7) as usize == size
        && in_limits(get_word(page, 0), get_word(page, 8), size)
        && get_word(page, 9) <= 2
}

// The page is laid out as the label of a volume of `size` records.
fn is_laid_out(page: &[u8; 512], size: usize) -> bool
    ensures { result ≡ label_laid_out size page.now }
{
    has_text(page) && has_right_numbers(page, size) && zero_between(page, 11, 128)
}
