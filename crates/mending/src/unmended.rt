// What salvage finds, as types.
use record::entry::Entry;

// An entry that does not show its mended form.
#[derive(Clone, Copy)]
pub struct Unmended {
    pub number: u16,
    pub form: Entry,
}
